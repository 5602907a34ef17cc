//! A number above those of all type variables that types name.
ghost use Rattle.std.specs.Prelude.{◌≡◌, ◌+◌, IfOk, map, max};
ghost use Rattle.jc_resolve_sites.specs.Above.{above, above_all, above_in_arg, above_target, greatest};

use jc_rules::WantOfMemory;
use jc_types::{Arg, Ty, VarId};

// No table holds as many variables as would overflow.
fn after(v: VarId) -> Result<u64, WantOfMemory>
    ensures { IfOk result (λ n. n ≡ v.0 + 1) }
{
    v.0.checked_add(1).ok_or(WantOfMemory)
}

/// The greater of two numbers.
pub fn greater(a: u64, b: u64) -> u64
    ensures { result ≡ max a b }
{
    if a < b { b } else { a }
}

/// The least number above those of all variables that a type names.
#[cycle(above)]
#[tactic(auto, using(crate::proofs::Forms::aboves))]
pub fn above(t: &Ty) -> Result<u64, WantOfMemory>
    ensures { IfOk result (λ n. n ≡ above t.now) }
{
    match t {
        Ty::Variable(v) => after(*v),
        Ty::Class { args, .. } => above_args(args.slice()),
        Ty::Array { of, .. } => above(of.get()),
        Ty::Meet { parts } => above_types(parts.slice()),
        Ty::Prim(_) => Ok(0),
        Ty::Raw { .. } => Ok(0),
        Ty::Captured(_) => Ok(0),
        Ty::NullTy => Ok(0),
    }
}

#[cycle(above)]
#[tactic(auto, using(crate::proofs::Forms::aboves))]
fn above_in_arg(arg: &Arg) -> Result<u64, WantOfMemory>
    ensures { IfOk result (λ n. n ≡ above_in_arg arg.now) }
{
    match arg {
        Arg::Exact(t) => above(t),
        Arg::Any => Ok(0),
        Arg::Extends(t) => above(t),
        Arg::Super(t) => above(t),
    }
}

#[cycle(above)]
fn above_args(list: &[Arg]) -> Result<u64, WantOfMemory>
    ensures { IfOk result (λ n. n ≡ greatest (map above_in_arg list.now)) }
{
    let mut most = 0;
    for i in 0..list.len() {
        let next = above_in_arg(&list[i])?;
        most = greater(most, next);
    }
    Ok(most)
}

#[cycle(above)]
fn above_types(list: &[Ty]) -> Result<u64, WantOfMemory>
    ensures { IfOk result (λ n. n ≡ greatest (map above list.now)) }
{
    let mut most = 0;
    for i in 0..list.len() {
        let next = above(&list[i])?;
        most = greater(most, next);
    }
    Ok(most)
}

/// The greatest of these numbers of several types.
#[tactic(auto, using(crate::proofs::Greatest::all_mapped))]
pub fn above_all(types: &[Ty]) -> Result<u64, WantOfMemory>
    ensures { IfOk result (λ n. n ≡ above_all types.now) }
{
    above_types(types)
}

/// .. of a target, if there is one.
pub fn above_target(target: &Option<Ty>) -> Result<u64, WantOfMemory>
    ensures { IfOk result (λ n. n ≡ above_target target.now) }
{
    match target {
        None => Ok(0),
        Some(t) => above(t),
    }
}
