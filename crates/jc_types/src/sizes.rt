//! The sizes of types.
ghost use Rattle.std.specs.Prelude.{◌≡◌, ◌+◌, sum, map};
ghost use Rattle.jc_types.specs.Counting.{count_of, arg_count_of, capped};

use crate::form::{Arg, Ty};

/// How many types and wildcards a type consists of, itself and each dimension of an array included. It stays at the greatest u32 where there are more.
#[cycle(size)]
#[tactic(auto, using(crate::proofs::Counted::counted))]
pub fn size(ty: &Ty) -> u32
    ensures { result ≡ capped (count_of ty.now) }
{
    match ty {
        Ty::Prim(_) => 1,
        Ty::Class { args, .. } => args_size(args.slice()).saturating_add(1),
        Ty::Raw { .. } => 1,
        Ty::Array { of, further } => with_dims(size(of.get()), *further),
        Ty::Variable(_) => 1,
        Ty::Captured(_) => 1,
        Ty::Meet { parts } => types_size(parts.slice()).saturating_add(1),
        Ty::NullTy => 1,
    }
}

// A size, and one for each dimension.
fn with_dims(of: u32, further: u64) -> u32
    ensures { result ≡ capped (of + further + 1) }
{
    let dims = further.saturating_add(1).min(u32::MAX as u64) as u32;
    of.saturating_add(dims)
}

#[cycle(size)]
#[tactic(auto, using(crate::proofs::Counted::counted))]
fn arg_size(arg: &Arg) -> u32
    ensures { result ≡ capped (arg_count_of arg.now) }
{
    match arg {
        Arg::Exact(t) => size(t),
        Arg::Any => 1,
        Arg::Extends(t) => size(t).saturating_add(1),
        Arg::Super(t) => size(t).saturating_add(1),
    }
}

#[cycle(size)]
#[tactic(auto, using(crate::proofs::Counted::counted))]
fn args_size(args: &[Arg]) -> u32
    ensures { result ≡ capped (sum (map arg_count_of args.now)) }
{
    let mut total: u32 = 0;
    for i in 0..args.len() {
        total = total.saturating_add(arg_size(&args[i]));
    }
    total
}

#[cycle(size)]
#[tactic(auto, using(crate::proofs::Counted::counted))]
fn types_size(types: &[Ty]) -> u32
    ensures { result ≡ capped (sum (map count_of types.now)) }
{
    let mut total: u32 = 0;
    for i in 0..types.len() {
        total = total.saturating_add(size(&types[i]));
    }
    total
}
