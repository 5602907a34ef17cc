//! The constraints of the target and of the bounds, for the parameters that the arguments leave open (JLS 15.12.2.8).
ghost use Rattle.std.specs.Prelude.{◌≡◌, IfOk, length};
ghost use Rattle.std.specs.Option.{option_copied};
ghost use Rattle.jc_types.specs.Substitution.{subst};
ghost use Rattle.jc_infer.specs.Naming.{names};
ghost use Rattle.jc_infer.specs.Steps.{by_all_bounds, by_bound, by_bounds, by_result, late, target_type, unless_named};

use crate::answering::{stand_ins, unknown};
use crate::naming::names;
use crate::outcome::Parameter;
use jc_boxes::boxed;
use jc_constraints::{Implied, Standing, implied, implied_by_target};
use jc_lub::object;
use jc_overriding::MethodView;
use jc_rules::{Items, WantOfMemory};
use jc_types::{Bounds, Table, Ty, VarId, substitute};
use std::alloc::Global;

fn target_type(alloc: Global, table: &Table, target: Option<&Ty>) -> Result<Ty, WantOfMemory>
    ensures { IfOk result (λ r. r ≡ target_type table.now (option_copied target.entry)) }
{
    match target {
        Some(t) => boxed(alloc, table, t),
        None => Ok(object(alloc)),
    }
}

fn by_result(
    alloc: Global,
    table: &Table,
    env: &[Bounds],
    left: &[VarId],
    target: Option<&Ty>,
    method: &MethodView,
) -> Result<Items<Implied>, WantOfMemory>
    ensures { IfOk result (λ r. r ≡ by_result table.now env.now left.now (option_copied target.entry) method.now.result) }
{
    match &method.result {
        None => Ok(Items::new(alloc)),
        Some(r) => {
            let target = target_type(alloc, table, target)?;
            implied_by_target(alloc, table, env, left, &target, r)
        }
    }
}

// The bound of a parameter without an answer stands above it, unless it names such a parameter itself.
fn above_unknown(
    alloc: Global,
    left: &[VarId],
    vars: &[VarId],
    by: &[Ty],
    v: VarId,
    bound: &Ty,
) -> Result<Items<Implied>, WantOfMemory>
    requires { length vars.now ≡ length by.now }
    ensures { IfOk result (λ r. r ≡ unless_named (names left.now bound.now) (record { variable = v; standing = Standing.Above; ty = subst vars.now by.now bound.now })) }
{
    let mut out = Items::new(alloc);
    if !names(left, bound) {
        let ty = substitute(alloc, bound, vars, by)?;
        out.push(Implied {
            variable: v,
            standing: Standing::Above,
            ty,
        })?;
    }
    Ok(out)
}

fn by_bound(
    alloc: Global,
    table: &Table,
    env: &[Bounds],
    left: &[VarId],
    vars: &[VarId],
    by: &[Ty],
    p: &Parameter,
    bound: &Ty,
) -> Result<Items<Implied>, WantOfMemory>
    requires { length vars.now ≡ length by.now }
    ensures { IfOk result (λ r. r ≡ by_bound table.now env.now left.now vars.now by.now p.now.variable p.now.early bound.now) }
{
    match &p.early {
        Some(t) => implied(alloc, table, env, left, bound, Standing::Below, t),
        None => above_unknown(alloc, left, vars, by, p.variable, bound),
    }
}

fn by_bounds(
    alloc: Global,
    table: &Table,
    env: &[Bounds],
    left: &[VarId],
    vars: &[VarId],
    by: &[Ty],
    p: &Parameter,
) -> Result<Items<Implied>, WantOfMemory>
    requires { length vars.now ≡ length by.now }
    ensures { IfOk result (λ r. r ≡ by_bounds table.now env.now left.now vars.now by.now p.now.variable p.now.early p.now.bounds) }
{
    let mut out = Items::new(alloc);
    let mut rest = p.bounds.slice();
    while let [b, more @ ..] = rest {
        let implied = by_bound(alloc, table, env, left, vars, by, p, b)?;
        out.append(implied)?;
        rest = more;
    }
    Ok(out)
}

fn by_all_bounds(
    alloc: Global,
    table: &Table,
    env: &[Bounds],
    left: &[VarId],
    vars: &[VarId],
    by: &[Ty],
    parameters: &[Parameter],
) -> Result<Items<Implied>, WantOfMemory>
    requires { length vars.now ≡ length by.now }
    ensures { IfOk result (λ r. r ≡ by_all_bounds table.now env.now left.now vars.now by.now parameters.now) }
{
    let mut out = Items::new(alloc);
    let mut rest = parameters;
    while let [p, more @ ..] = rest {
        let implied = by_bounds(alloc, table, env, left, vars, by, p)?;
        out.append(implied)?;
        rest = more;
    }
    Ok(out)
}

/// What the target and the bounds imply of the parameters that have no answer yet.
pub fn late(
    alloc: Global,
    table: &Table,
    env: &[Bounds],
    method: &MethodView,
    parameters: &[Parameter],
    target: Option<&Ty>,
) -> Result<Items<Implied>, WantOfMemory>
    requires { length method.now.vars ≡ length parameters.now }
    ensures { IfOk result (λ r. r ≡ late table.now env.now method.now parameters.now (option_copied target.entry)) }
{
    let left = unknown(alloc, parameters)?;
    let by = stand_ins(alloc, parameters)?;
    let mut out = by_result(alloc, table, env, left.slice(), target, method)?;
    let vars = method.vars.slice();
    let more = by_all_bounds(
        alloc,
        table,
        env,
        left.slice(),
        vars,
        by.slice(),
        parameters,
    )?;
    out.append(more)?;
    Ok(out)
}
