//! Whether a cast is unchecked.
ghost use Rattle.std.specs.Prelude.{◌≡◌, ◌&&◌, ◌-◌, not, IfOk};
ghost use Rattle.std.specs.List.{list_all};
ghost use Rattle.jc_types.specs.declared.form.Arg.{out-Arg};
ghost use Rattle.jc_types.specs.declared.form.Ty.{Ty-F, out-Ty};
ghost use Rattle.jc_types.specs.Reifying.{is_unbounded};
ghost use Rattle.jc_overriding.specs.Viewing.{with_dims};
ghost use Rattle.jc_unchecked_spec.specs.Casts.{is_below, is_open_at, is_unchecked_at, is_unchecked_by, is_unchecked_cast};

use crate::scene::{Scene, is_below};
use crate::telling::is_told;
use jc_rules::WantOfMemory;
use jc_sub::is_primitive;
use jc_types::{Arg, ClassId, Ty, array_over, copy_type, reifiable};

#[tactic(auto, using(jc_types::proofs::Opened::opened), unfolding(jc_types::specs::Reifying::is_unbounded))]
fn is_unbounded(a: &Arg) -> bool
    ensures { result ≡ is_unbounded a.now }
{
    match a {
        Arg::Exact(_) => false,
        Arg::Any => true,
        Arg::Extends(_) => false,
        Arg::Super(_) => false,
    }
}

fn are_unbounded(args: &[Arg]) -> bool
    ensures { result ≡ list_all is_unbounded args.now }
{
    let mut rest = args;
    while let [a, more @ ..] = rest {
        if !is_unbounded(a) {
            return false;
        }
        rest = more;
    }
    true
}

// Whether nothing tells that a type has these arguments of a class.
fn is_open_class(scene: &Scene, s: &Ty, class: ClassId, args: &[Arg]) -> Result<bool, WantOfMemory>
    ensures { IfOk result (λ r. r ≡ is_open_at scene.now.table.now scene.now.env.now.bounds (out-Ty s.now) (Ty-F.Class class args.now)) }
{
    match args {
        [] => Ok(false),
        [_, ..] => {
            if are_unbounded(args) {
                return Ok(false);
            }
            let told = is_told(scene, s, class, args)?;
            Ok(!told)
        }
    }
}

#[tactic(auto, using(jc_types::proofs::Opened::opened))]
fn is_open(scene: &Scene, s: &Ty, t: &Ty) -> Result<bool, WantOfMemory>
    ensures { IfOk result (λ r. r ≡ is_open_at scene.now.table.now scene.now.env.now.bounds (out-Ty s.now) (out-Ty t.now)) }
{
    match t {
        Ty::Class { id, args } => is_open_class(scene, s, *id, args.slice()),
        Ty::Variable(_) => Ok(true),
        Ty::Array { of, .. } => Ok(!reifiable(scene.table, of.get())),
        Ty::Prim(_) => Ok(false),
        Ty::Raw { .. } => Ok(false),
        Ty::Captured(_) => Ok(false),
        Ty::Meet { .. } => Ok(false),
        Ty::NullTy => Ok(false),
    }
}

// The same of types of which not both are arrays.
fn is_unchecked_at(scene: &Scene, s: &Ty, t: &Ty) -> Result<bool, WantOfMemory>
    ensures { IfOk result (λ r. r ≡ is_unchecked_at scene.now.table.now scene.now.env.now.bounds s.now t.now) }
{
    if is_below(scene, s, t)? {
        return Ok(false);
    }
    is_open(scene, s, t)
}

// An array type of so many dimensions over a type, which is itself where there are none.
#[tactic(auto, using(jc_members::proofs::Dims::with_some_dims))]
fn with_dims(scene: &Scene, dims: u64, t: &Ty) -> Result<Ty, WantOfMemory>
    ensures { IfOk result (λ r. r ≡ with_dims dims t.now) }
{
    let t = copy_type(scene.alloc, t)?;
    if dims == 0 {
        return Ok(t);
    }
    array_over(scene.alloc, t, dims - 1)
}

// The same of elements of arrays of so many dimensions, for as many dimensions as both have.
fn are_unchecked(scene: &Scene, u: &Ty, m: u64, v: &Ty, n: u64) -> Result<bool, WantOfMemory>
    ensures { IfOk result (λ r. r ≡ is_unchecked_at scene.now.table.now scene.now.env.now.bounds (with_dims (m - n) u.now) (with_dims (n - m) v.now)) }
{
    let s = with_dims(scene, m.saturating_sub(n), u)?;
    let t = with_dims(scene, n.saturating_sub(m), v)?;
    is_unchecked_at(scene, &s, &t)
}

#[tactic(auto, using(jc_types::proofs::Opened::opened))]
fn is_unchecked_to_array(
    scene: &Scene,
    s: &Ty,
    t: &Ty,
    v: &Ty,
    n: u64,
) -> Result<bool, WantOfMemory>
    ensures { IfOk result (λ r. r ≡ is_unchecked_by scene.now.table.now scene.now.env.now.bounds s.now t.now (out-Ty s.now) (Ty-F.Array v.now n)) }
{
    match s {
        Ty::Array { of, further } => {
            if is_below(scene, s, t)? {
                return Ok(false);
            }
            are_unchecked(scene, of.get(), *further, v, n)
        }
        Ty::Prim(_) => is_unchecked_at(scene, s, t),
        Ty::Class { .. } => is_unchecked_at(scene, s, t),
        Ty::Raw { .. } => is_unchecked_at(scene, s, t),
        Ty::Variable(_) => is_unchecked_at(scene, s, t),
        Ty::Captured(_) => is_unchecked_at(scene, s, t),
        Ty::Meet { .. } => is_unchecked_at(scene, s, t),
        Ty::NullTy => is_unchecked_at(scene, s, t),
    }
}

#[tactic(auto, using(jc_types::proofs::Opened::opened))]
fn is_unchecked_by(scene: &Scene, s: &Ty, t: &Ty) -> Result<bool, WantOfMemory>
    ensures { IfOk result (λ r. r ≡ is_unchecked_by scene.now.table.now scene.now.env.now.bounds s.now t.now (out-Ty s.now) (out-Ty t.now)) }
{
    match t {
        Ty::Array { of, further } => is_unchecked_to_array(scene, s, t, of.get(), *further),
        Ty::Prim(_) => is_unchecked_at(scene, s, t),
        Ty::Class { .. } => is_unchecked_at(scene, s, t),
        Ty::Raw { .. } => is_unchecked_at(scene, s, t),
        Ty::Variable(_) => is_unchecked_at(scene, s, t),
        Ty::Captured(_) => is_unchecked_at(scene, s, t),
        Ty::Meet { .. } => is_unchecked_at(scene, s, t),
        Ty::NullTy => is_unchecked_at(scene, s, t),
    }
}

/// Whether a cast of the first type to the second, both reference types, is unchecked (JLS 5.5.2).
pub fn is_unchecked_cast(scene: &Scene, s: &Ty, t: &Ty) -> Result<bool, WantOfMemory>
    ensures { IfOk result (λ r. r ≡ is_unchecked_cast scene.now.table.now scene.now.env.now.bounds s.now t.now) }
{
    if is_primitive(s) || is_primitive(t) {
        return Ok(false);
    }
    is_unchecked_by(scene, s, t)
}
