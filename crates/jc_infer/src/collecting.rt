//! The constraints of a call's arguments, and what they imply of one type parameter.
ghost use Rattle.std.specs.Prelude.{◌≡◌, IfOk};
ghost use Rattle.jc_infer.specs.Steps.{by_argument, by_arguments, by_call, is_of, standing_so};

use crate::stretching::formals;
use jc_boxes::boxed;
use jc_constraints::{Implied, Standing, implied};
use jc_overriding::MethodView;
use jc_rules::{Items, WantOfMemory};
use jc_sub::is_null;
use jc_types::{Bounds, Phase, Table, Ty, VarId, copy_type};
use std::alloc::Global;

fn by_argument(
    alloc: Global,
    table: &Table,
    env: &[Bounds],
    vars: &[VarId],
    formal: &Ty,
    actual: &Ty,
) -> Result<Items<Implied>, WantOfMemory>
    ensures { IfOk result (λ r. r ≡ by_argument table.now env.now vars.now formal.now actual.now) }
{
    if is_null(actual) {
        return Ok(Items::new(alloc));
    }
    let actual = boxed(alloc, table, actual)?;
    implied(alloc, table, env, vars, formal, Standing::Below, &actual)
}

fn by_arguments(
    alloc: Global,
    table: &Table,
    env: &[Bounds],
    vars: &[VarId],
    formals: &[Ty],
    args: &[Ty],
) -> Result<Items<Implied>, WantOfMemory>
    ensures { IfOk result (λ r. r ≡ by_arguments table.now env.now vars.now formals.now args.now) }
{
    let mut out = Items::new(alloc);
    let mut rest = formals;
    let mut others = args;
    while let [f, more @ ..] = rest {
        let [a, further @ ..] = others else {
            return Ok(out);
        };
        let implied = by_argument(alloc, table, env, vars, f, a)?;
        out.append(implied)?;
        rest = more;
        others = further;
    }
    Ok(out)
}

/// What the arguments of a call imply of the method's type parameters.
pub fn by_call(
    alloc: Global,
    table: &Table,
    env: &[Bounds],
    method: &MethodView,
    phase: Phase,
    args: &[Ty],
) -> Result<Items<Implied>, WantOfMemory>
    ensures { IfOk result (λ r. r ≡ by_call table.now env.now method.now phase args.now) }
{
    let formals = formals(alloc, phase, method.params.slice(), args.len())?;
    by_arguments(
        alloc,
        table,
        env,
        method.vars.slice(),
        formals.slice(),
        args,
    )
}

fn is_of(v: VarId, standing: Standing, implied: &Implied) -> bool
    ensures { result ≡ is_of v standing implied.now }
{
    implied.variable.0 == v.0 && implied.standing == standing
}

/// The types that stand so to a parameter, in the order of the list.
pub fn standing_so(
    alloc: Global,
    v: VarId,
    standing: Standing,
    implied: &[Implied],
) -> Result<Items<Ty>, WantOfMemory>
    ensures { IfOk result (λ r. r ≡ standing_so v standing implied.now) }
{
    let mut list = Items::new(alloc);
    for i in implied {
        if is_of(v, standing, i) {
            list.push(copy_type(alloc, &i.ty)?)?;
        }
    }
    Ok(list)
}
