//! What the constraint of an argument implies (JLS 15.12.2.7).
ghost use Rattle.std.specs.Prelude.{◌≡◌, map, IfOk, Some};
ghost use Rattle.jc_types.specs.declared.form.Arg.{out-Arg};
ghost use Rattle.jc_constraints.specs.Standings.{part_of};
ghost use Rattle.jc_constraints.specs.Constraints.{beside, implied, implied_by_arg, implied_if, is_unknown, of_parts};

use crate::arrays::elements_down;
use crate::standing::{ArgKind, Implied, Standing};
use crate::standings::{kind_of, part_of, standing_of};
use crate::views::args_for;
use jc_rules::{Items, WantOfMemory};
use jc_types::{Arg, Bounds, Table, Ty, VarId, copy_type};
use std::alloc::Global;

/// Whether a variable is one of the unknown type parameters.
pub fn is_unknown(unknown: &[VarId], v: VarId) -> bool
    ensures { result ≡ is_unknown unknown.now v }
{
    let mut rest = unknown;
    while let [w, more @ ..] = rest {
        if w.0 == v.0 {
            return true;
        }
        rest = more;
    }
    false
}

pub fn implied_if(
    alloc: Global,
    holds: bool,
    v: VarId,
    standing: Standing,
    t: &Ty,
) -> Result<Items<Implied>, WantOfMemory>
    ensures { IfOk result (λ r. r ≡ implied_if holds v standing t.now) }
{
    let mut out = Items::new(alloc);
    if holds {
        let ty = copy_type(alloc, t)?;
        out.push(Implied {
            variable: v,
            standing,
            ty,
        })?;
    }
    Ok(out)
}

/// What the constraint between a formal and an actual type implies of the unknown type parameters, in the order in which it stands.
#[cycle(implied)]
#[tactic(auto, using(crate::proofs::Implications::implications))]
pub fn implied(
    alloc: Global,
    table: &Table,
    env: &[Bounds],
    unknown: &[VarId],
    formal: &Ty,
    standing: Standing,
    actual: &Ty,
) -> Result<Items<Implied>, WantOfMemory>
    ensures { IfOk result (λ r. r ≡ implied table.now env.now unknown.now formal.now standing actual.now) }
{
    match formal {
        Ty::Class { id, args } => {
            let seen = args_for(alloc, table, env, standing, *id, actual)?;
            implied_beside(
                alloc,
                table,
                env,
                unknown,
                args.slice(),
                standing,
                seen.slice(),
            )
        }
        Ty::Array { of, further } => {
            match elements_down(alloc, table, env, standing, *further, actual)? {
                None => Ok(Items::new(alloc)),
                Some(t) => implied(alloc, table, env, unknown, of.get(), standing, &t),
            }
        }
        Ty::Variable(v) => implied_if(alloc, is_unknown(unknown, *v), *v, standing, actual),
        Ty::Prim(_) => Ok(Items::new(alloc)),
        Ty::Raw { .. } => Ok(Items::new(alloc)),
        Ty::Captured(_) => Ok(Items::new(alloc)),
        Ty::Meet { .. } => Ok(Items::new(alloc)),
        Ty::NullTy => Ok(Items::new(alloc)),
    }
}

#[cycle(implied)]
#[tactic(auto, using(crate::proofs::Implications::implications))]
fn implied_by_arg(
    alloc: Global,
    table: &Table,
    env: &[Bounds],
    unknown: &[VarId],
    formal: &Arg,
    standing: Standing,
    actual: &Arg,
) -> Result<Items<Implied>, WantOfMemory>
    ensures { IfOk result (λ r. r ≡ implied_by_arg table.now env.now unknown.now formal.now standing actual.now) }
{
    match formal {
        Arg::Exact(u) => {
            let standing = standing_of(standing, ArgKind::Exact, kind_of(actual));
            implied_by_part(alloc, table, env, unknown, u, actual, standing)
        }
        Arg::Any => Ok(Items::new(alloc)),
        Arg::Extends(u) => {
            let standing = standing_of(standing, ArgKind::Extends, kind_of(actual));
            implied_by_part(alloc, table, env, unknown, u, actual, standing)
        }
        Arg::Super(u) => {
            let standing = standing_of(standing, ArgKind::Super, kind_of(actual));
            implied_by_part(alloc, table, env, unknown, u, actual, standing)
        }
    }
}

#[cycle(implied)]
fn implied_by_part(
    alloc: Global,
    table: &Table,
    env: &[Bounds],
    unknown: &[VarId],
    formal: &Ty,
    actual: &Arg,
    standing: Option<Standing>,
) -> Result<Items<Implied>, WantOfMemory>
    ensures { IfOk result (λ r. r ≡ of_parts (Some (implied table.now env.now unknown.now formal.now)) (part_of (out-Arg actual.now)) standing) }
{
    match part_of(actual) {
        None => Ok(Items::new(alloc)),
        Some(t) => match standing {
            None => Ok(Items::new(alloc)),
            Some(standing) => implied(alloc, table, env, unknown, formal, standing, t),
        },
    }
}

#[cycle(implied)]
#[tactic(auto, using(crate::proofs::Implications::beside_end))]
fn implied_beside(
    alloc: Global,
    table: &Table,
    env: &[Bounds],
    unknown: &[VarId],
    formals: &[Arg],
    standing: Standing,
    actuals: &[Arg],
) -> Result<Items<Implied>, WantOfMemory>
    ensures { IfOk result (λ r. r ≡ beside (map (implied_by_arg table.now env.now unknown.now) formals.now) standing actuals.now) }
{
    let mut out = Items::new(alloc);
    for i in 0..formals.len() {
        if actuals.len() <= i {
            return Ok(out);
        }
        let more = implied_by_arg(
            alloc,
            table,
            env,
            unknown,
            &formals[i],
            standing,
            &actuals[i],
        )?;
        out.append(more)?;
    }
    Ok(out)
}
