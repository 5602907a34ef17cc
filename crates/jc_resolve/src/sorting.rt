//! Several most specific members with one signature (JLS 8.4.2, 8.4.5, 15.12.2.5).
ghost use Rattle.std.specs.Prelude.{◌≡◌, ◌≤◌, IfOk};
ghost use Rattle.std.specs.Option.{option_copied};
ghost use Rattle.jc_resolve.specs.Choosing.{all_equivalent, all_equivalent_to, bodies, converts_to, equivalent, first_with_body, fits_all, reference_fits, result_fits, type_fits, yes_if};

use crate::applied::Candidate;
use jc_convert::{Converts, invocation};
use jc_judge::Answer;
use jc_members::{MethodView, adapted, erased_within, override_equivalent};
use jc_rules::WantOfMemory;
use jc_sub::is_primitive;
use jc_types::{Env, Table, Ty, has_body, same_type};
use std::alloc::Global;

#[tactic(auto, unfolding(crate::specs::Choosing::equivalent))]
fn equivalent(
    alloc: Global,
    table: &Table,
    a: &MethodView,
    b: &MethodView,
) -> Result<bool, WantOfMemory>
    ensures { IfOk result (λ r. r ≡ equivalent table.now a.now b.now) }
{
    override_equivalent(alloc, table, a, b)
}

fn all_equivalent_to(
    alloc: Global,
    table: &Table,
    a: &MethodView,
    others: &[Candidate],
) -> Result<bool, WantOfMemory>
    ensures { IfOk result (λ r. r ≡ all_equivalent_to table.now a.now others.now) }
{
    let mut rest = others;
    while let [b, more @ ..] = rest {
        match equivalent(alloc, table, a, &b.member)? {
            true => rest = more,
            false => return Ok(false),
        }
    }
    Ok(true)
}

/// Whether each two of the candidates have override-equivalent signatures.
pub fn all_equivalent(
    alloc: Global,
    table: &Table,
    candidates: &[Candidate],
) -> Result<bool, WantOfMemory>
    ensures { IfOk result (λ r. r ≡ all_equivalent table.now candidates.now) }
{
    let mut rest = candidates;
    while let [a, more @ ..] = rest {
        match all_equivalent_to(alloc, table, &a.member, more)? {
            true => rest = more,
            false => return Ok(false),
        }
    }
    Ok(true)
}

/// How many of the candidates have a body.
pub fn bodies(table: &Table, candidates: &[Candidate]) -> usize
    ensures { result ≡ bodies table.now candidates.now }
{
    let mut count = 0;
    let mut rest = candidates;
    while let [c, more @ ..] = rest {
        if has_body(table, c.member.id) {
            count += 1;
        }
        rest = more;
    }
    count
}

/// The first of the candidates that has a body.
pub fn first_with_body<'a>(table: &Table, candidates: &'a [Candidate]) -> Option<&'a Candidate>
    ensures { option_copied result ≡ first_with_body table.now candidates.now }
{
    let mut rest = candidates;
    while let [c, more @ ..] = rest {
        if has_body(table, c.member.id) {
            return Some(c);
        }
        rest = more;
    }
    None
}

fn yes_if(holds: bool) -> Answer
    ensures { result ≡ yes_if holds }
{
    if holds { Answer::Yes } else { Answer::No }
}

fn converts_to(converts: Converts) -> Answer
    ensures { result ≡ converts_to converts }
{
    match converts {
        Converts::Yes(_) => Answer::Yes,
        Converts::NoConversion => Answer::No,
        Converts::Deep => Answer::Deep,
    }
}

fn reference_fits(
    alloc: Global,
    table: &Table,
    env: &Env,
    a: &MethodView,
    b: &MethodView,
    s: &Ty,
    t: &Ty,
) -> Result<Answer, WantOfMemory>
    ensures { IfOk result (λ r. r ≡ reference_fits table.now env.now.bounds a.now b.now s.now t.now) }
{
    let erased = erased_within(alloc, table, env, b, t)?;
    if same_type(s, &erased) {
        return Ok(Answer::Yes);
    }
    let t = adapted(alloc, a, b, t)?;
    let converts = invocation(alloc, table, env, s, &t)?;
    Ok(converts_to(converts))
}

fn type_fits(
    alloc: Global,
    table: &Table,
    env: &Env,
    a: &MethodView,
    b: &MethodView,
    s: &Ty,
    t: &Ty,
) -> Result<Answer, WantOfMemory>
    ensures { IfOk result (λ r. r ≡ type_fits table.now env.now.bounds a.now b.now s.now t.now) }
{
    if is_primitive(s) || is_primitive(t) {
        return Ok(yes_if(same_type(s, t)));
    }
    reference_fits(alloc, table, env, a, b, s, t)
}

// Whether a's result fits b's.
fn result_fits(
    alloc: Global,
    table: &Table,
    env: &Env,
    a: &MethodView,
    b: &MethodView,
) -> Result<Answer, WantOfMemory>
    ensures { IfOk result (λ r. r ≡ result_fits table.now env.now.bounds a.now b.now) }
{
    if a.id.0 == b.id.0 {
        return Ok(Answer::Yes);
    }
    match &a.result {
        None => Ok(yes_if(b.result.is_none())),
        Some(s) => match &b.result {
            None => Ok(Answer::No),
            Some(t) => type_fits(alloc, table, env, a, b, s, t),
        },
    }
}

/// Whether a's result fits that of each candidate: the first question that isn't proved decides.
pub fn fits_all(
    alloc: Global,
    table: &Table,
    env: &Env,
    a: &MethodView,
    candidates: &[Candidate],
) -> Result<Answer, WantOfMemory>
    ensures { IfOk result (λ r. r ≡ fits_all table.now env.now.bounds a.now candidates.now) }
{
    let mut rest = candidates;
    while let [b, more @ ..] = rest {
        match result_fits(alloc, table, env, a, &b.member)? {
            Answer::Yes => rest = more,
            Answer::No => return Ok(Answer::No),
            Answer::Deep => return Ok(Answer::Deep),
        }
    }
    Ok(Answer::Yes)
}
