//! Inference.
ghost use Rattle.std.specs.Prelude.{◌≡◌, IfOk, length};
ghost use Rattle.std.specs.Option.{option_copied};
ghost use Rattle.jc_infer.specs.Asked.{answered, inferred, inferred_for};

use crate::answering::{answers, parameters};
use crate::asking::all_asked;
use crate::collecting::by_call;
use crate::late::late;
use crate::outcome::{Inference, Parameter};
use jc_constraints::Implied;
use jc_overriding::MethodView;
use jc_rules::{Items, WantOfMemory};
use jc_types::{Env, Phase, Table, Ty};
use std::alloc::Global;

// The answers, and what is asked of them.
#[tactic(auto, using(crate::proofs::Lengths::mapped_length))]
fn answered(
    alloc: Global,
    table: &Table,
    env: &Env,
    method: &MethodView,
    parameters: &[Parameter],
    later: &[Implied],
) -> Result<Inference, WantOfMemory>
    requires { length method.now.vars ≡ length parameters.now }
    ensures { IfOk result (λ r. r ≡ answered table.now env.now.bounds method.now parameters.now later.now) }
{
    let answers = answers(alloc, table, later, parameters)?;
    let vars = method.vars.slice();
    let found = all_asked(alloc, table, env, later, vars, answers, parameters)?;
    Ok(found)
}

// The third step, and what follows. What the arguments imply still holds of the parameters that they leave open.
fn inferred_for(
    alloc: Global,
    table: &Table,
    env: &Env,
    method: &MethodView,
    implied: Items<Implied>,
    parameters: &[Parameter],
    target: Option<&Ty>,
) -> Result<Inference, WantOfMemory>
    requires { length method.now.vars ≡ length parameters.now }
    ensures { IfOk result (λ r. r ≡ inferred_for table.now env.now.bounds method.now implied parameters.now (option_copied target.entry)) }
{
    let mut all = implied;
    let later = late(alloc, table, env.bounds.slice(), method, parameters, target)?;
    all.append(later)?;
    let found = answered(alloc, table, env, method, parameters, all.slice())?;
    Ok(found)
}

/// The type arguments of a call of a method (JLS 15.12.2.7, 15.12.2.8), from the types of its arguments in this phase and, where it has one, of its target.
///
/// For each type parameter in order its answer is asked to be below each of its bounds, with the answers for the type parameters, and then to be well formed. The first
/// question that isn't proved decides.
#[tactic(auto, using(crate::proofs::Lengths::parameters_length))]
pub fn infer(
    alloc: Global,
    table: &Table,
    env: &Env,
    method: &MethodView,
    phase: Phase,
    args: &[Ty],
    target: Option<&Ty>,
) -> Result<Inference, WantOfMemory>
    ensures { IfOk result (λ r. r ≡ inferred table.now env.now.bounds method.now phase args.now (option_copied target.entry)) }
{
    let bounds = env.bounds.slice();
    let vars = method.vars.slice();
    let implied = by_call(alloc, table, bounds, method, phase, args)?;
    let parameters = parameters(
        alloc,
        table,
        env,
        implied.slice(),
        vars,
        method.bounds.slice(),
    )?;
    let found = inferred_for(
        alloc,
        table,
        env,
        method,
        implied,
        parameters.slice(),
        target,
    )?;
    Ok(found)
}
