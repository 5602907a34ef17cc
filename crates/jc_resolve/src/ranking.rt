//! Which members are more specific than others (JLS 15.12.2.5).
ghost use Rattle.std.specs.Prelude.{◌≡◌, IfOk, List, Option, max};
ghost use Rattle.jc_resolve.specs.declared.applied.Candidate.{Candidate};
ghost use Rattle.jc_resolve.specs.Applying.{before, before_if};
ghost use Rattle.jc_infer.specs.declared.outcome.Inference.TheVariants as inference;
ghost use Rattle.jc_resolve.specs.Parameters.{standing_in, with_parameters};
ghost use Rattle.jc_resolve.specs.Specific.{all_below, beaten, compared, compared_by, compared_with, either, maximal, more_specific, put_unless, strictly};

use crate::applied::Candidate;
use crate::applying::{formals_with, put_all};
use crate::copying::copy_candidate;
use crate::parameters::{bounded_by, shrink, stand_ins};
use jc_infer::{Inference, formals, infer};
use jc_judge::Answer;
use jc_members::MethodView;
use jc_rules::{Items, WantOfMemory};
use jc_sub::below;
use jc_types::{Env, Phase, Table, Ty};
use std::alloc::Global;

// Each type is below the one at its place.
fn all_below(
    alloc: Global,
    table: &Table,
    env: &Env,
    types: &[Ty],
    wanted: &[Ty],
) -> Result<Answer, WantOfMemory>
    ensures { IfOk result (λ a. a ≡ all_below table.now env.now.bounds types.now wanted.now) }
{
    let mut rest = types;
    let mut others = wanted;
    while let [s, more @ ..] = rest {
        match others {
            [] => return Ok(Answer::Yes),
            [t, later @ ..] => {
                match below(alloc, table, env, s, t)? {
                    Answer::Yes => {}
                    Answer::No => return Ok(Answer::No),
                    Answer::Deep => return Ok(Answer::Deep),
                }
                others = later;
            }
        }
        rest = more;
    }
    Ok(Answer::Yes)
}

// What stands for a member's type parameters, where parameters of another one are its arguments.
fn compared_by(
    alloc: Global,
    table: &Table,
    env: &Env,
    phase: Phase,
    b: &MethodView,
    params: &[Ty],
) -> Result<Inference, WantOfMemory>
    ensures { IfOk result (λ r. r ≡ compared_by table.now env.now.bounds phase b.now params.now) }
{
    match b.vars.slice() {
        [] => Ok(Inference::Inferred {
            args: Items::new(alloc),
        }),
        [_, ..] => infer(alloc, table, env, b, phase, params, None),
    }
}

fn compared_with(
    alloc: Global,
    table: &Table,
    env: &Env,
    phase: Phase,
    b: &MethodView,
    params: &[Ty],
    by: &[Ty],
) -> Result<Answer, WantOfMemory>
    ensures { IfOk result (λ a. a ≡ compared_with table.now env.now.bounds phase b.now params.now (inference.Inferred by.now)) }
{
    let wanted = formals_with(alloc, phase, b, by, params.len())?;
    all_below(alloc, table, env, params, wanted.slice())
}

// Whether parameters of another member are below those of b.
fn compared(
    alloc: Global,
    table: &Table,
    env: &Env,
    phase: Phase,
    b: &MethodView,
    params: &[Ty],
) -> Result<Answer, WantOfMemory>
    ensures { IfOk result (λ a. a ≡ compared table.now env.now.bounds phase b.now params.now) }
{
    match compared_by(alloc, table, env, phase, b, params)? {
        Inference::Inferred { args } => {
            compared_with(alloc, table, env, phase, b, params, args.slice())
        }
        Inference::NotApplicable { .. } => Ok(Answer::No),
        Inference::Deep => Ok(Answer::Deep),
    }
}

// The same of parameters of a member with type parameters, which stand behind the captured variables as long as they are asked.
#[tactic(auto, using(crate::proofs::Short::back_to))]
fn compared_generic(
    alloc: Global,
    table: &Table,
    env: &mut Env,
    phase: Phase,
    a: &MethodView,
    b: &MethodView,
    params: &[Ty],
) -> Result<Answer, WantOfMemory>
    ensures answer { IfOk result (λ r. r ≡ compared table.now (with_parameters env.old.bounds a.now) phase b.now (standing_in env.old.bounds a.now params.now)) }
    ensures env { env.new.bounds ≡ env.old.bounds }
{
    let vars = a.vars.slice();
    let kept = env.bounds.len();
    let by = stand_ins(alloc, kept as u64, vars)?;
    let own = bounded_by(alloc, vars, by.slice(), a.bounds.slice())?;
    let params = put_all(alloc, params, vars, by.slice())?;
    env.bounds.append(own)?;
    let answer = compared(alloc, table, env, phase, b, params.slice());
    shrink(&mut env.bounds, kept);
    answer
}

// Whether a is more specific than b.
fn more_specific(
    alloc: Global,
    table: &Table,
    env: &mut Env,
    phase: Phase,
    a: &MethodView,
    b: &MethodView,
) -> Result<Answer, WantOfMemory>
    ensures answer { IfOk result (λ r. r ≡ more_specific table.now env.old.bounds phase a.now b.now) }
    ensures env { env.new.bounds ≡ env.old.bounds }
{
    let count = a.params.slice().len().max(b.params.slice().len());
    let params = formals(alloc, phase, a.params.slice(), count)?;
    match a.vars.slice() {
        [] => compared(alloc, table, env, phase, b, params.slice()),
        [_, ..] => compared_generic(alloc, table, env, phase, a, b, params.slice()),
    }
}

// Whether a is more specific than b, and b isn't more specific than a.
fn strictly(
    alloc: Global,
    table: &Table,
    env: &mut Env,
    phase: Phase,
    a: &MethodView,
    b: &MethodView,
) -> Result<Answer, WantOfMemory>
    ensures answer { IfOk result (λ r. r ≡ strictly table.now env.old.bounds phase a.now b.now) }
    ensures env { env.new.bounds ≡ env.old.bounds }
{
    if a.id.0 == b.id.0 {
        return Ok(Answer::No);
    }
    match more_specific(alloc, table, env, phase, a, b)? {
        Answer::Yes => match more_specific(alloc, table, env, phase, b, a)? {
            Answer::Yes => Ok(Answer::No),
            Answer::No => Ok(Answer::Yes),
            Answer::Deep => Ok(Answer::Deep),
        },
        Answer::No => Ok(Answer::No),
        Answer::Deep => Ok(Answer::Deep),
    }
}

fn either(a: Answer, b: Answer) -> Answer
    ensures { result ≡ either a b }
{
    match a {
        Answer::Deep => Answer::Deep,
        Answer::Yes => match b {
            Answer::Deep => Answer::Deep,
            Answer::Yes => Answer::Yes,
            Answer::No => Answer::Yes,
        },
        Answer::No => b,
    }
}

// Whether one of these candidates is strictly more specific than b.
#[tactic(auto, using(crate::proofs::Beating::either_joined, crate::proofs::Beating::either_no))]
fn beaten(
    alloc: Global,
    table: &Table,
    env: &mut Env,
    phase: Phase,
    b: &MethodView,
    candidates: &[Candidate],
) -> Result<Answer, WantOfMemory>
    ensures answer { IfOk result (λ r. r ≡ beaten table.now env.old.bounds phase b.now candidates.now) }
    ensures env { env.new.bounds ≡ env.old.bounds }
{
    let mut found = Answer::No;
    let mut rest = candidates;
    while let [a, more @ ..] = rest {
        let next = strictly(alloc, table, env, phase, &a.member, b)?;
        found = either(found, next);
        rest = more;
    }
    Ok(found)
}

// A candidate is added where no other one is strictly more specific; false where a comparison is Deep.
#[tactic(auto, using(crate::proofs::Listed::before_put))]
fn add_unless_beaten(
    alloc: Global,
    table: &Table,
    env: &mut Env,
    phase: Phase,
    all: &[Candidate],
    c: &Candidate,
    list: &mut Items<Candidate>,
) -> Result<bool, WantOfMemory>
    ensures answer { IfOk result (λ known. (more : Option (List Candidate)) → before_if known list.new more ≡ before list.old (put_unless (beaten table.now env.old.bounds phase c.now.member all.now) c.now more)) }
    ensures env { env.new.bounds ≡ env.old.bounds }
{
    match beaten(alloc, table, env, phase, &c.member, all)? {
        Answer::Yes => Ok(true),
        Answer::No => {
            let found = copy_candidate(alloc, c)?;
            list.push(found)?;
            Ok(true)
        }
        Answer::Deep => Ok(false),
    }
}

/// Those of the candidates that no other one is strictly more specific than; None where a comparison is Deep.
#[tactic(auto, using(crate::proofs::Listed::before_nothing))]
pub fn maximal(
    alloc: Global,
    table: &Table,
    env: &mut Env,
    phase: Phase,
    all: &[Candidate],
) -> Result<Option<Items<Candidate>>, WantOfMemory>
    ensures answer { IfOk result (λ r. r ≡ maximal table.now env.old.bounds phase all.now all.now) }
    ensures env { env.new.bounds ≡ env.old.bounds }
{
    let mut list = Items::new(alloc);
    let mut rest = all;
    while let [c, more @ ..] = rest {
        match add_unless_beaten(alloc, table, env, phase, all, c, &mut list)? {
            true => rest = more,
            false => return Ok(None),
        }
    }
    Ok(Some(list))
}
