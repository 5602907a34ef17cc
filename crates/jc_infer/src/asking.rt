//! The questions on the answers.
ghost use Rattle.std.specs.Prelude.{◌≡◌, ◌+◌, ◌≤◌, ◌^◌, IfOk, length};
ghost use Rattle.jc_infer.specs.Steps.{answer, meets};
ghost use Rattle.jc_judge.specs.Forming.{formed_answer};
ghost use Rattle.jc_infer.specs.Asked.{all_asked, one_asked, unless_formed, within};

use crate::answering::{answer, meets};
use crate::outcome::{Inference, Parameter, Why};
use jc_constraints::Implied;
use jc_rules::{Items, WantOfMemory};
use jc_sub::below;
use jc_types::{Env, Table, Ty, VarId, is_row, substitute_all};
use jc_wellformed::{Answer, well_formed};
use std::alloc::Global;

/// Whether a type is below each of these bounds: the first answer that isn't Yes.
fn within(
    alloc: Global,
    table: &Table,
    env: &Env,
    t: &Ty,
    bounds: &[Ty],
) -> Result<Answer, WantOfMemory>
    ensures { IfOk result (λ a. a ≡ within table.now env.now.bounds t.now bounds.now) }
{
    let mut rest = bounds;
    while let [b, more @ ..] = rest {
        match below(alloc, table, env, t, b)? {
            Answer::Yes => rest = more,
            Answer::No => return Ok(Answer::No),
            Answer::Deep => return Ok(Answer::Deep),
        }
    }
    Ok(Answer::Yes)
}

// What the judgement on the i-th answer comes to: None where it is well formed.
fn ill_at(
    alloc: Global,
    table: &Table,
    env: &Env,
    i: u64,
    t: &Ty,
) -> Result<Option<Inference>, WantOfMemory>
    ensures { IfOk result (λ r. r ≡ unless_formed (formed_answer table.now 64 env.now.bounds t.now) i) }
{
    match well_formed(alloc, table, env, t)? {
        Answer::Yes => Ok(None),
        Answer::No => Ok(Some(Inference::NotApplicable {
            why: Why::Ill { i },
        })),
        Answer::Deep => Ok(Some(Inference::Deep)),
    }
}

/// The questions on the i-th answer: None where all are proved.
fn one_asked(
    alloc: Global,
    table: &Table,
    env: &Env,
    later: &[Implied],
    vars: &[VarId],
    answers: &[Ty],
    i: u64,
    p: &Parameter,
) -> Result<Option<Inference>, WantOfMemory>
    requires { length vars.now ≡ length answers.now }
    ensures { IfOk result (λ r. r ≡ one_asked table.now env.now.bounds later.now vars.now answers.now i p.now) }
{
    if meets(alloc, table, later, p)? {
        return Ok(Some(Inference::NotApplicable {
            why: Why::Ill { i },
        }));
    }
    let t = answer(alloc, table, later, p)?;
    let bounds = substitute_all(alloc, p.bounds.slice(), vars, answers, is_row(vars))?;
    match within(alloc, table, env, &t, bounds.slice())? {
        Answer::Yes => ill_at(alloc, table, env, i, &t),
        Answer::No => Ok(Some(Inference::NotApplicable {
            why: Why::Bound { i },
        })),
        Answer::Deep => Ok(Some(Inference::Deep)),
    }
}

/// The questions on all answers: the first that isn't proved decides.
pub fn all_asked(
    alloc: Global,
    table: &Table,
    env: &Env,
    later: &[Implied],
    vars: &[VarId],
    answers: Items<Ty>,
    parameters: &[Parameter],
) -> Result<Inference, WantOfMemory>
    requires { length vars.now ≡ length answers }
    ensures { IfOk result (λ r. r ≡ all_asked table.now env.now.bounds later.now vars.now answers 0 parameters.now) }
{
    let mut rest = parameters;
    let mut i: u64 = 0;
    while let [p, more @ ..] = rest {
        if let Some(found) = one_asked(alloc, table, env, later, vars, answers.slice(), i, p)? {
            return Ok(found);
        }
        rest = more;
        i = i.checked_add(1).ok_or(WantOfMemory)?;
    }
    Ok(Inference::Inferred { args: answers })
}
