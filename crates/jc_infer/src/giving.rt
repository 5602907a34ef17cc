//! Explicit type arguments.
ghost use Rattle.std.specs.Prelude.{◌≡◌, IfOk, length};
ghost use Rattle.jc_infer.specs.Asked.{given, written, written_one};

use crate::answering::split;
use crate::asking::all_asked;
use crate::outcome::{Inference, Parameter};
use jc_overriding::MethodView;
use jc_rules::{Items, WantOfMemory};
use jc_types::{Env, Table, Ty, VarId, copy_type, copy_types};
use std::alloc::Global;

// A parameter whose answer is written.
fn parameter(alloc: Global, v: VarId, bounds: &[Ty], t: &Ty) -> Result<Parameter, WantOfMemory>
    ensures { IfOk result (λ r. r ≡ written_one v bounds.now t.now) }
{
    let bounds = copy_types(alloc, bounds)?;
    let early = Some(copy_type(alloc, t)?);
    Ok(Parameter {
        variable: v,
        bounds,
        early,
    })
}

// Parameters whose answers are written.
fn written(
    alloc: Global,
    vars: &[VarId],
    bounds: &[Items<Ty>],
    args: &[Ty],
) -> Result<Items<Parameter>, WantOfMemory>
    ensures { IfOk result (λ r. r ≡ written vars.now bounds.now args.now) }
{
    let mut list = Items::new(alloc);
    let mut rest = vars;
    let mut others = bounds;
    let mut left = args;
    while let [v, more @ ..] = rest {
        let (first, further) = split(others);
        match left {
            [] => return Ok(list),
            [t, later @ ..] => {
                list.push(parameter(alloc, *v, first, t)?)?;
                left = later;
            }
        }
        rest = more;
        others = further;
    }
    Ok(list)
}

/// What is asked of explicit type arguments (JLS 15.12.2.1), as many as the method has type parameters: of each in order what is asked of an inferred one. The first
/// question that isn't proved decides.
#[tactic(auto, unfolding(crate::specs::Asked::given))]
pub fn given(
    alloc: Global,
    table: &Table,
    env: &Env,
    method: &MethodView,
    args: &[Ty],
) -> Result<Inference, WantOfMemory>
    requires { length method.now.vars ≡ length args.now }
    ensures { IfOk result (λ r. r ≡ given table.now env.now.bounds method.now args.now) }
{
    let vars = method.vars.slice();
    let parameters = written(alloc, vars, method.bounds.slice(), args)?;
    let answers = copy_types(alloc, args)?;
    let found = all_asked(alloc, table, env, &[], vars, answers, parameters.slice())?;
    Ok(found)
}
