//! The type of a conditional whose lub is not well formed.
ghost use Rattle.std.specs.Prelude.{◌≡◌, map, IfOk};
ghost use Rattle.jc_repair.specs.Repairing.{is_yes, is_sound, loosened, repaired, repaired_arg};

use jc_judge::Answer;
use jc_rules::{Boxed, Items, WantOfMemory};
use jc_types::{Arg, Env, Table, Ty, copy_type};
use jc_wellformed::well_formed;
use std::alloc::Global;

fn is_yes(answer: Answer) -> bool
    ensures { result ≡ is_yes answer }
{
    match answer {
        Answer::Yes => true,
        Answer::No => false,
        Answer::Deep => false,
    }
}

fn is_sound(alloc: Global, table: &Table, env: &Env, ty: &Ty) -> Result<bool, WantOfMemory>
    ensures { IfOk result (λ r. r ≡ is_sound table.now env.now.bounds ty.now) }
{
    let answer = well_formed(alloc, table, env, ty)?;
    Ok(is_yes(answer))
}

#[tactic(auto, using(jc_types::proofs::Opened::opened), unfolding(crate::specs::Repairing::loosened))]
fn loosened(arg: Arg) -> Arg
    ensures { result ≡ loosened arg }
{
    match arg {
        Arg::Exact(t) => Arg::Extends(t),
        Arg::Any => Arg::Any,
        Arg::Extends(t) => Arg::Extends(t),
        Arg::Super(_) => Arg::Any,
    }
}

/// The repair of a type: each class type in it that isn't known to be well formed, or has one inside that isn't, as the type was, gets
/// `? extends U` for each exact argument `U`, and `?` for each super wildcard. Which types are changed is settled before the first
/// change, so that the result is above the type.
#[cycle(repair)]
#[tactic(auto, using(jc_types::proofs::Opened::opened, crate::proofs::Repaired::repaireds))]
pub fn repair(alloc: Global, table: &Table, env: &Env, ty: &Ty) -> Result<Ty, WantOfMemory>
    ensures { IfOk result (λ r. r ≡ repaired table.now env.now.bounds ty.now) }
{
    match ty {
        Ty::Class { id, args } => {
            let args = if is_sound(alloc, table, env, ty)? {
                repaired_args(alloc, table, env, args.slice())?
            } else {
                loosened_args(alloc, table, env, args.slice())?
            };
            Ok(Ty::Class { id: *id, args })
        }
        Ty::Array { of, further } => {
            let of = repair(alloc, table, env, of.get())?;
            Ok(Ty::Array {
                of: Boxed::new(alloc, of)?,
                further: *further,
            })
        }
        Ty::Meet { parts } => {
            let parts = repaired_types(alloc, table, env, parts.slice())?;
            Ok(Ty::Meet { parts })
        }
        Ty::Prim(_) => copy_type(alloc, ty),
        Ty::Raw { .. } => copy_type(alloc, ty),
        Ty::Variable(_) => copy_type(alloc, ty),
        Ty::Captured(_) => copy_type(alloc, ty),
        Ty::NullTy => copy_type(alloc, ty),
    }
}

#[cycle(repair)]
#[tactic(auto, using(jc_types::proofs::Opened::opened, crate::proofs::Repaired::repaireds))]
fn repaired_arg(alloc: Global, table: &Table, env: &Env, arg: &Arg) -> Result<Arg, WantOfMemory>
    ensures { IfOk result (λ r. r ≡ repaired_arg table.now env.now.bounds arg.now) }
{
    match arg {
        Arg::Exact(t) => Ok(Arg::Exact(repair(alloc, table, env, t)?)),
        Arg::Any => Ok(Arg::Any),
        Arg::Extends(t) => Ok(Arg::Extends(repair(alloc, table, env, t)?)),
        Arg::Super(t) => Ok(Arg::Super(repair(alloc, table, env, t)?)),
    }
}

#[cycle(repair)]
fn repaired_args(
    alloc: Global,
    table: &Table,
    env: &Env,
    args: &[Arg],
) -> Result<Items<Arg>, WantOfMemory>
    ensures { IfOk result (λ r. r ≡ map (repaired_arg table.now env.now.bounds) args.now) }
{
    let mut out = Items::new(alloc);
    for i in 0..args.len() {
        let arg = repaired_arg(alloc, table, env, &args[i])?;
        out.push(arg)?;
    }
    Ok(out)
}

#[cycle(repair)]
fn loosened_args(
    alloc: Global,
    table: &Table,
    env: &Env,
    args: &[Arg],
) -> Result<Items<Arg>, WantOfMemory>
    ensures { IfOk result (λ r. r ≡ map loosened (map (repaired_arg table.now env.now.bounds) args.now)) }
{
    let mut out = Items::new(alloc);
    for i in 0..args.len() {
        let arg = repaired_arg(alloc, table, env, &args[i])?;
        out.push(loosened(arg))?;
    }
    Ok(out)
}

#[cycle(repair)]
fn repaired_types(
    alloc: Global,
    table: &Table,
    env: &Env,
    types: &[Ty],
) -> Result<Items<Ty>, WantOfMemory>
    ensures { IfOk result (λ r. r ≡ map (repaired table.now env.now.bounds) types.now) }
{
    let mut out = Items::new(alloc);
    for i in 0..types.len() {
        let ty = repair(alloc, table, env, &types[i])?;
        out.push(ty)?;
    }
    Ok(out)
}
