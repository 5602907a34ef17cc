//! Erasure (JLS 4.6).
ghost use Rattle.std.specs.Prelude.{◌≡◌, ◌+◌, ◌-◌, ◌^◌, min, IsTrue};
ghost use Rattle.std.specs.Option.{option_copied};
ghost use Rattle.jc_types.specs.declared.form.Ty.{out-Ty};
ghost use Rattle.jc_types.specs.Erasing.{erasure, erased_within, capped, raised, leftmost_within, is_inner, own_base, variable_bounds, Reaches, object};

use crate::accessors::{captured_uppers, declared_bounds};
use crate::environment::{Bounds, Env};
use crate::erased::{Base, Erased};
use crate::form::Ty;
use crate::ids::ClassId;
use crate::table::Table;

/// The erasure of a type (JLS 4.6): that of a variable is the erasure of its leftmost bound, and that of an intersection the
/// erasure of its first part. A variable that depends on itself as a bound erases to `Object`.
#[tactic(auto, unfolding(crate::specs::Erasing::erasure))]
pub fn erasure(table: &Table, env: &Env, ty: &Ty) -> Erased
    ensures { result ≡ erasure table.now env.now.bounds ty.now }
{
    let env = env.bounds.slice();
    let steps = table.variables.slice().len() + env.len();
    erased_within(table, env, steps, ty)
}

// The erasure, where at most this many variables are gone through.
#[cycle(erasure)]
fn erased_within(table: &Table, env: &[Bounds], steps: usize, ty: &Ty) -> Erased
    ensures { result ≡ capped (erased_within table.now env.now steps ty.now) }
{
    let (inner, dims) = inner_type(ty);
    raised(inner_erasure(table, env, steps, inner), dims)
}

#[cycle(erasure)]
fn inner_erasure(table: &Table, env: &[Bounds], steps: usize, ty: &Ty) -> Erased
    requires { IsTrue (is_inner (out-Ty ty.now)) }
    ensures { result ≡ capped (erased_within table.now env.now steps ty.now) }
{
    match variable_bounds(table, env, ty) {
        Some(bounds) => leftmost_within(table, env, steps, bounds),
        None => Erased {
            base: own_base(ty),
            dims: 0,
        },
    }
}

#[cycle(erasure)]
fn leftmost_within(table: &Table, env: &[Bounds], steps: usize, bounds: &[Ty]) -> Erased
    ensures { result ≡ capped (leftmost_within table.now env.now steps bounds.now) }
{
    match bounds {
        [] => object(),
        [first, ..] => {
            if steps == 0 {
                return object();
            }
            erased_within(table, env, steps - 1, first)
        }
    }
}

fn object() -> Erased
    ensures { result ≡ object }
{
    Erased {
        base: Base::Class(ClassId(0)),
        dims: 0,
    }
}

// That many more array dimensions.
fn raised(erased: Erased, dims: u32) -> Erased
    ensures { result ≡ capped (raised dims erased) }
{
    Erased {
        base: erased.base,
        dims: erased.dims.saturating_add(dims),
    }
}

// The type to which array dimensions and first parts of intersections lead, and the number of the dimensions.
fn inner_type(ty: &Ty) -> (&Ty, u32)
    ensures reaches { Reaches ty.now result.0.now result.1 }
    ensures inner { IsTrue (is_inner (out-Ty result.0.now)) }
{
    let mut dims: u32 = 0;
    let mut inner = ty;
    loop {
        match inner {
            Ty::Array { of, further } => {
                dims = more_dims(dims, *further);
                inner = of.get();
            }
            Ty::Meet { parts } => match parts.slice() {
                [first, ..] => inner = first,
                [] => return (inner, dims),
            },
            _ => return (inner, dims),
        }
    }
}

// That many dimensions, and `further + 1` more.
fn more_dims(dims: u32, further: u64) -> u32
    ensures { result ≡ min (dims + (further + 1)) (2 ^ 32 - 1) }
{
    dims.saturating_add(further.saturating_add(1).min(u32::MAX as u64) as u32)
}

#[tactic(auto, using(crate::proofs::Opened::opened))]
fn own_base(ty: &Ty) -> Base
    ensures { result ≡ own_base (out-Ty ty.now) }
{
    match ty {
        Ty::Prim(p) => Base::Prim(*p),
        Ty::Class { id, .. } => Base::Class(*id),
        Ty::Raw { id } => Base::Class(*id),
        Ty::NullTy => Base::NullTy,
        Ty::Array { .. } => Base::Class(ClassId(0)),
        Ty::Variable(_) => Base::Class(ClassId(0)),
        Ty::Captured(_) => Base::Class(ClassId(0)),
        Ty::Meet { .. } => Base::Class(ClassId(0)),
    }
}

#[tactic(auto, using(crate::proofs::Opened::opened), unfolding(crate::specs::Erasing::variable_bounds))]
fn variable_bounds<'a>(table: &'a Table, env: &'a [Bounds], ty: &Ty) -> Option<&'a [Ty]>
    ensures { option_copied result ≡ variable_bounds table.now env.now ty.now }
{
    match ty {
        Ty::Variable(v) => Some(declared_bounds(table, *v)),
        Ty::Captured(c) => Some(captured_uppers(env, *c)),
        _ => None,
    }
}
