//! What the target of a call, or a bound, implies (JLS 15.12.2.8).
ghost use Rattle.std.specs.Prelude.{◌≡◌, [], map, IfOk};
ghost use Rattle.std.specs.Option.{option_copied};
ghost use Rattle.jc_types.specs.declared.form.Arg.{out-Arg};
ghost use Rattle.jc_types.specs.Arrays.{lowered};
ghost use Rattle.jc_types.specs.declared.form.Ty.{out-Ty};
ghost use Rattle.jc_judge.specs.Meeting.{are_exact, is_exact_at};
ghost use Rattle.jc_constraints.specs.Targets.{aimed, aimed_by_arg, aims_beside, array_aim, exact_only, exact_or_lower, exact_or_upper, implied_by_target, parameter_or, seen_as, with_aim};

use crate::implying::{implied, implied_if, is_unknown};
use crate::standing::{Implied, Standing};
use crate::views::{args_in, is_of_class};
use jc_lub::args_of;
use jc_rules::{Boxed, Items, WantOfMemory};
use jc_sub::{is_primitive, view};
use jc_types::{Arg, Bounds, ClassId, Table, Ty, VarId, copy_args, copy_type};
use std::alloc::Global;

#[tactic(auto, using(jc_types::proofs::Opened::opened))]
fn is_exact(arg: &Arg) -> bool
    ensures { result ≡ is_exact_at (out-Arg arg.now) }
{
    match arg {
        Arg::Exact(_) => true,
        _ => false,
    }
}

fn are_exact(args: &[Arg]) -> bool
    ensures { result ≡ are_exact args.now }
{
    let mut rest = args;
    while let [a, more @ ..] = rest {
        if !is_exact(a) {
            return false;
        }
        rest = more;
    }
    true
}

/// The arguments of a formal type seen as the target's class.
fn seen_as(alloc: Global, table: &Table, k: ClassId, f: &Ty) -> Result<Items<Arg>, WantOfMemory>
    ensures { IfOk result (λ r. r ≡ seen_as table.now k f.now) }
{
    if is_of_class(f, k) {
        return copy_args(alloc, args_of(f));
    }
    if !are_exact(args_of(f)) {
        return Ok(Items::new(alloc));
    }
    args_in(alloc, view(alloc, table, k, f)?)
}

#[tactic(auto, using(jc_types::proofs::Opened::opened))]
fn exact_only(arg: &Arg) -> Option<&Ty>
    ensures { option_copied result ≡ exact_only (out-Arg arg.now) }
{
    match arg {
        Arg::Exact(t) => Some(t),
        _ => None,
    }
}

#[tactic(auto, using(jc_types::proofs::Opened::opened))]
fn exact_or_upper(arg: &Arg) -> Option<&Ty>
    ensures { option_copied result ≡ exact_or_upper (out-Arg arg.now) }
{
    match arg {
        Arg::Exact(t) => Some(t),
        Arg::Extends(t) => Some(t),
        _ => None,
    }
}

#[tactic(auto, using(jc_types::proofs::Opened::opened))]
fn exact_or_lower(arg: &Arg) -> Option<&Ty>
    ensures { option_copied result ≡ exact_or_lower (out-Arg arg.now) }
{
    match arg {
        Arg::Exact(t) => Some(t),
        Arg::Super(t) => Some(t),
        _ => None,
    }
}

// An array of so many dimensions less, or what it is of.
fn lowered(alloc: Global, of: &Ty, dimensions: u64) -> Result<Ty, WantOfMemory>
    ensures { IfOk result (λ r. r ≡ lowered of.now dimensions) }
{
    let of = copy_type(alloc, of)?;
    if dimensions == 0 {
        return Ok(of);
    }
    Ok(Ty::Array {
        of: Boxed::new(alloc, of)?,
        further: dimensions - 1,
    })
}

/// What a target above a formal type implies of the unknown type parameters, in the order in which it stands.
#[cycle(aim)]
#[tactic(auto, using(jc_types::proofs::Opened::opened))]
pub fn implied_by_target(
    alloc: Global,
    table: &Table,
    env: &[Bounds],
    unknown: &[VarId],
    target: &Ty,
    formal: &Ty,
) -> Result<Items<Implied>, WantOfMemory>
    ensures { IfOk result (λ r. r ≡ implied_by_target table.now env.now unknown.now target.now formal.now) }
{
    match formal {
        Ty::Variable(v) => implied_if(alloc, is_unknown(unknown, *v), *v, Standing::Above, target),
        _ => aimed(alloc, table, env, unknown, target, formal),
    }
}

#[cycle(aim)]
#[tactic(auto, using(crate::proofs::Aimings::aimings))]
fn aimed(
    alloc: Global,
    table: &Table,
    env: &[Bounds],
    unknown: &[VarId],
    target: &Ty,
    formal: &Ty,
) -> Result<Items<Implied>, WantOfMemory>
    ensures { IfOk result (λ r. r ≡ aimed table.now env.now unknown.now target.now formal.now) }
{
    match target {
        Ty::Class { id, args } => {
            let seen = seen_as(alloc, table, *id, formal)?;
            aimed_beside(alloc, table, env, unknown, args.slice(), seen.slice())
        }
        Ty::Array { of, further } => {
            aimed_array(alloc, table, env, unknown, of.get(), *further, formal)
        }
        Ty::Prim(_) => Ok(Items::new(alloc)),
        Ty::Raw { .. } => Ok(Items::new(alloc)),
        Ty::Variable(_) => Ok(Items::new(alloc)),
        Ty::Captured(_) => Ok(Items::new(alloc)),
        Ty::Meet { .. } => Ok(Items::new(alloc)),
        Ty::NullTy => Ok(Items::new(alloc)),
    }
}

#[cycle(aim)]
#[tactic(auto, using(jc_types::proofs::Opened::opened))]
fn aimed_array(
    alloc: Global,
    table: &Table,
    env: &[Bounds],
    unknown: &[VarId],
    of: &Ty,
    further: u64,
    formal: &Ty,
) -> Result<Items<Implied>, WantOfMemory>
    ensures { IfOk result (λ r. r ≡ array_aim unknown.now (of.now, aimed table.now env.now unknown.now of.now) further (out-Ty formal.now)) }
{
    match formal {
        Ty::Array {
            of: inner,
            further: more,
        } => {
            if *more < further {
                let left = lowered(alloc, of, further - *more)?;
                return parameter_above(alloc, unknown, inner.get(), &left);
            }
            if is_primitive(of) {
                return Ok(Items::new(alloc));
            }
            let inner = lowered(alloc, inner.get(), *more - further)?;
            implied_by_target(alloc, table, env, unknown, of, &inner)
        }
        _ => Ok(Items::new(alloc)),
    }
}

#[tactic(auto, using(jc_types::proofs::Opened::opened))]
fn parameter_above(
    alloc: Global,
    unknown: &[VarId],
    formal: &Ty,
    target: &Ty,
) -> Result<Items<Implied>, WantOfMemory>
    ensures { IfOk result (λ r. r ≡ parameter_or unknown.now target.now [] (out-Ty formal.now)) }
{
    match formal {
        Ty::Variable(v) => implied_if(alloc, is_unknown(unknown, *v), *v, Standing::Above, target),
        _ => Ok(Items::new(alloc)),
    }
}

#[cycle(aim)]
#[tactic(auto, using(crate::proofs::Aimings::aimings))]
fn aimed_by_arg(
    alloc: Global,
    table: &Table,
    env: &[Bounds],
    unknown: &[VarId],
    target: &Arg,
    formal: &Arg,
) -> Result<Items<Implied>, WantOfMemory>
    ensures { IfOk result (λ r. r ≡ aimed_by_arg table.now env.now unknown.now target.now (out-Arg formal.now)) }
{
    match target {
        Arg::Exact(t) => match exact_only(formal) {
            None => Ok(Items::new(alloc)),
            Some(f) => implied(alloc, table, env, unknown, f, Standing::Same, t),
        },
        Arg::Any => Ok(Items::new(alloc)),
        Arg::Extends(t) => match exact_or_upper(formal) {
            None => Ok(Items::new(alloc)),
            Some(f) => implied_by_target(alloc, table, env, unknown, t, f),
        },
        Arg::Super(t) => match exact_or_lower(formal) {
            None => Ok(Items::new(alloc)),
            Some(f) => implied(alloc, table, env, unknown, f, Standing::Below, t),
        },
    }
}

#[cycle(aim)]
#[tactic(auto, using(crate::proofs::Aimings::aims_end))]
fn aimed_beside(
    alloc: Global,
    table: &Table,
    env: &[Bounds],
    unknown: &[VarId],
    targets: &[Arg],
    formals: &[Arg],
) -> Result<Items<Implied>, WantOfMemory>
    ensures { IfOk result (λ r. r ≡ aims_beside (map (with_aim table.now env.now unknown.now) targets.now) formals.now) }
{
    let mut out = Items::new(alloc);
    for i in 0..targets.len() {
        if formals.len() <= i {
            return Ok(out);
        }
        let more = aimed_by_arg(alloc, table, env, unknown, &targets[i], &formals[i])?;
        out.append(more)?;
    }
    Ok(out)
}
