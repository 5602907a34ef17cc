//! Whether two types are the same (JLS 4.3.4).
ghost use Rattle.std.specs.Prelude.{◌≡◌, ◌↔◌, IsTrue};
ghost use Rattle.jc_types.specs.Sameness.{same};

use crate::form::{Arg, Ty};

/// Whether two types are the same (JLS 4.3.4).
pub fn same_type(a: &Ty, b: &Ty) -> bool
    ensures equal { IsTrue result ↔ (a.now ≡ b.now) }
    ensures told { result ≡ same a.now b.now }
{
    equal_types(a, b)
}

/// Whether two type arguments are the same (JLS 4.5.1).
pub fn same_arg(a: &Arg, b: &Arg) -> bool
    ensures { IsTrue result ↔ (a.now ≡ b.now) }
{
    equal_args(a, b)
}

#[cycle(same)]
fn equal_types(a: &Ty, b: &Ty) -> bool
    ensures { IsTrue result ↔ (a.now ≡ b.now) }
{
    match (a, b) {
        (Ty::Prim(p), Ty::Prim(q)) => p == q,
        (
            Ty::Class { id, args },
            Ty::Class {
                id: other,
                args: others,
            },
        ) => { id == other && equal_arg_lists(args.slice(), others.slice()) }
        (Ty::Raw { id }, Ty::Raw { id: other }) => id == other,
        (
            Ty::Array { of, further },
            Ty::Array {
                of: other,
                further: others,
            },
        ) => { further == others && equal_types(of.get(), other.get()) }
        (Ty::Variable(v), Ty::Variable(w)) => v == w,
        (Ty::Captured(v), Ty::Captured(w)) => v == w,
        (Ty::Meet { parts }, Ty::Meet { parts: others }) => equal_lists(
            parts.slice(),
            others.slice(),
        ),
        (Ty::NullTy, Ty::NullTy) => true,
        _ => false,
    }
}

#[cycle(same)]
fn equal_args(a: &Arg, b: &Arg) -> bool
    ensures { IsTrue result ↔ (a.now ≡ b.now) }
{
    match (a, b) {
        (Arg::Exact(t), Arg::Exact(u)) => equal_types(t, u),
        (Arg::Any, Arg::Any) => true,
        (Arg::Extends(t), Arg::Extends(u)) => equal_types(t, u),
        (Arg::Super(t), Arg::Super(u)) => equal_types(t, u),
        _ => false,
    }
}

#[cycle(same)]
fn equal_arg_lists(xs: &[Arg], ys: &[Arg]) -> bool
    ensures { IsTrue result ↔ (xs.now ≡ ys.now) }
{
    if xs.len() != ys.len() {
        return false;
    }
    for i in 0..xs.len() {
        if !equal_args(&xs[i], &ys[i]) {
            return false;
        }
    }
    true
}

#[cycle(same)]
fn equal_lists(xs: &[Ty], ys: &[Ty]) -> bool
    ensures { IsTrue result ↔ (xs.now ≡ ys.now) }
{
    if xs.len() != ys.len() {
        return false;
    }
    for i in 0..xs.len() {
        if !equal_types(&xs[i], &ys[i]) {
            return false;
        }
    }
    true
}
