//! The answers of the steps.
ghost use Rattle.std.specs.Prelude.{◌≡◌, IfOk, drop, map};
ghost use Rattle.jc_infer.specs.Steps.{answer, early, first_bounds, lub_of_some, meets, parameter, parameters, stand_in, unknown};

use crate::collecting::standing_so;
use crate::outcome::Parameter;
use jc_constraints::{Implied, Standing};
use jc_lub::lub;
use jc_rules::{Items, WantOfMemory};
use jc_sub::{as_one, classes_meet, glb_parts};
use jc_types::{Env, Table, Ty, VarId, copy_type, copy_types};
use std::alloc::Global;

fn lub_of_some(
    alloc: Global,
    table: &Table,
    env: &Env,
    types: &[Ty],
) -> Result<Option<Ty>, WantOfMemory>
    ensures { IfOk result (λ r. r ≡ lub_of_some table.now env.now.bounds types.now) }
{
    match types {
        [] => Ok(None),
        [_, ..] => Ok(Some(lub(alloc, table, env, types)?)),
    }
}

/// The answer of the arguments alone: the first equality, else the lub of the types below.
fn early(
    alloc: Global,
    table: &Table,
    env: &Env,
    implied: &[Implied],
    v: VarId,
) -> Result<Option<Ty>, WantOfMemory>
    ensures { IfOk result (λ r. r ≡ early table.now env.now.bounds implied.now v) }
{
    let same = standing_so(alloc, v, Standing::Same, implied)?;
    match same.slice() {
        [t, ..] => Ok(Some(copy_type(alloc, t)?)),
        [] => {
            let below = standing_so(alloc, v, Standing::Below, implied)?;
            lub_of_some(alloc, table, env, below.slice())
        }
    }
}

fn parameter(
    alloc: Global,
    table: &Table,
    env: &Env,
    implied: &[Implied],
    v: VarId,
    bounds: &[Ty],
) -> Result<Parameter, WantOfMemory>
    ensures { IfOk result (λ r. r ≡ parameter table.now env.now.bounds implied.now v bounds.now) }
{
    let early = early(alloc, table, env, implied, v)?;
    let bounds = copy_types(alloc, bounds)?;
    Ok(Parameter {
        variable: v,
        bounds,
        early,
    })
}

/// The first list, and the rest; none where there is no list.
pub fn split(bounds: &[Items<Ty>]) -> (&[Ty], &[Items<Ty>])
    ensures { (result.0.now ≡ first_bounds bounds.now) × (result.1.now ≡ drop 1 bounds.now) }
{
    match bounds {
        [] => (&[], &[]),
        [first, more @ ..] => (first.slice(), more),
    }
}

/// The type parameters of a method with their bounds and early answers.
pub fn parameters(
    alloc: Global,
    table: &Table,
    env: &Env,
    implied: &[Implied],
    vars: &[VarId],
    bounds: &[Items<Ty>],
) -> Result<Items<Parameter>, WantOfMemory>
    ensures { IfOk result (λ r. r ≡ parameters table.now env.now.bounds implied.now vars.now bounds.now) }
{
    let mut list = Items::new(alloc);
    let mut rest = vars;
    let mut others = bounds;
    while let [v, more @ ..] = rest {
        let (first, further) = split(others);
        list.push(parameter(alloc, table, env, implied, *v, first)?)?;
        rest = more;
        others = further;
    }
    Ok(list)
}

/// The parameters that have no answer yet.
pub fn unknown(alloc: Global, parameters: &[Parameter]) -> Result<Items<VarId>, WantOfMemory>
    ensures { IfOk result (λ r. r ≡ unknown parameters.now) }
{
    let mut list = Items::new(alloc);
    for p in parameters {
        if p.early.is_none() {
            list.push(p.variable)?;
        }
    }
    Ok(list)
}

fn stand_in(alloc: Global, p: &Parameter) -> Result<Ty, WantOfMemory>
    ensures { IfOk result (λ r. r ≡ stand_in p.now) }
{
    match &p.early {
        Some(t) => copy_type(alloc, t),
        None => Ok(Ty::Variable(p.variable)),
    }
}

/// What stands for each parameter so far.
pub fn stand_ins(alloc: Global, parameters: &[Parameter]) -> Result<Items<Ty>, WantOfMemory>
    ensures { IfOk result (λ r. r ≡ map stand_in parameters.now) }
{
    let mut list = Items::new(alloc);
    for p in parameters {
        list.push(stand_in(alloc, p)?)?;
    }
    Ok(list)
}

/// The answer for a parameter: an early one; else the first equality, the glb of the types above, or Object.
pub fn answer(
    alloc: Global,
    table: &Table,
    later: &[Implied],
    p: &Parameter,
) -> Result<Ty, WantOfMemory>
    ensures { IfOk result (λ r. r ≡ answer table.now later.now p.now) }
{
    if let Some(t) = &p.early {
        return copy_type(alloc, t);
    }
    let same = standing_so(alloc, p.variable, Standing::Same, later)?;
    if let [t, ..] = same.slice() {
        return copy_type(alloc, t);
    }
    let above = standing_so(alloc, p.variable, Standing::Above, later)?;
    let parts = glb_parts(alloc, table, above.slice())?;
    Ok(as_one(alloc, parts))
}

/// The answers in order.
pub fn answers(
    alloc: Global,
    table: &Table,
    later: &[Implied],
    parameters: &[Parameter],
) -> Result<Items<Ty>, WantOfMemory>
    ensures { IfOk result (λ r. r ≡ map (answer table.now later.now) parameters.now) }
{
    let mut list = Items::new(alloc);
    for p in parameters {
        list.push(answer(alloc, table, later, p)?)?;
    }
    Ok(list)
}

/// Whether two unrelated classes meet in a parameter's answer.
pub fn meets(
    alloc: Global,
    table: &Table,
    later: &[Implied],
    p: &Parameter,
) -> Result<bool, WantOfMemory>
    ensures { IfOk result (λ r. r ≡ meets table.now later.now p.now) }
{
    if p.early.is_some() {
        return Ok(false);
    }
    let same = standing_so(alloc, p.variable, Standing::Same, later)?;
    if same.len() > 0 {
        return Ok(false);
    }
    let above = standing_so(alloc, p.variable, Standing::Above, later)?;
    let parts = glb_parts(alloc, table, above.slice())?;
    classes_meet(alloc, table, parts.slice())
}
