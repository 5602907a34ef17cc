//! The most specific one of applicable members (JLS 15.12.2.5, 15.12.2.6).
ghost use Rattle.std.specs.Prelude.{◌≡◌, IfOk, map};
ghost use Rattle.jc_types.specs.Substitution.{subst};
ghost use Rattle.std.specs.Option.{option_map};
ghost use Rattle.jc_resolve.specs.Choosing.{ambiguous, bodies, by_body, by_result, chosen, chosen_among, result_type, told};

use crate::applied::Candidate;
use crate::applying::put_all;
use crate::choice::{Choice, Chosen};
use crate::copying::copy_view;
use crate::sorting::{all_equivalent, bodies, first_with_body, fits_all};
use jc_judge::Answer;
use jc_members::erased_within;
use jc_rules::{Items, WantOfMemory};
use jc_types::{Env, Phase, Table, Ty, VarId, copy_types, substitute};
use std::alloc::Global;

/// A type with type arguments for type parameters, each for each.
#[tactic(auto, using(jc_members::proofs::Short::subst_short))]
pub fn put(alloc: Global, t: &Ty, vars: &[VarId], by: &[Ty]) -> Result<Ty, WantOfMemory>
    ensures { IfOk result (λ r. r ≡ subst vars.now by.now t.now) }
{
    let most = vars.len().min(by.len());
    substitute(alloc, t, &vars[..most], &by[..most])
}

// A result with the type arguments for the type parameters, or erased.
fn result_type(
    alloc: Global,
    table: &Table,
    env: &Env,
    c: &Candidate,
    t: &Ty,
) -> Result<Ty, WantOfMemory>
    ensures { IfOk result (λ r. r ≡ result_type table.now env.now.bounds c.now.member c.now.type_args c.now.unchecked t.now) }
{
    if c.unchecked {
        return erased_within(alloc, table, env, &c.member, t);
    }
    put(alloc, t, c.member.vars.slice(), c.type_args.slice())
}

fn result_of(
    alloc: Global,
    table: &Table,
    env: &Env,
    c: &Candidate,
) -> Result<Option<Ty>, WantOfMemory>
    ensures { IfOk result (λ r. r ≡ option_map (result_type table.now env.now.bounds c.now.member c.now.type_args c.now.unchecked) c.now.member.result) }
{
    match &c.member.result {
        None => Ok(None),
        Some(t) => {
            let t = result_type(alloc, table, env, c, t)?;
            Ok(Some(t))
        }
    }
}

// The result with the type arguments, which is not erased.
fn kept_of(alloc: Global, c: &Candidate) -> Result<Option<Ty>, WantOfMemory>
    ensures { IfOk result (λ r. r ≡ option_map (subst c.now.member.vars c.now.type_args) c.now.member.result) }
{
    match &c.member.result {
        None => Ok(None),
        Some(t) => {
            let t = put(alloc, t, c.member.vars.slice(), c.type_args.slice())?;
            Ok(Some(t))
        }
    }
}

// The thrown types with the type arguments for the type parameters, or erased.
fn thrown_of(
    alloc: Global,
    table: &Table,
    env: &Env,
    c: &Candidate,
) -> Result<Items<Ty>, WantOfMemory>
    ensures { IfOk result (λ r. r ≡ map (result_type table.now env.now.bounds c.now.member c.now.type_args c.now.unchecked) c.now.member.thrown) }
{
    let mut list = Items::new(alloc);
    let mut rest = c.member.thrown.slice();
    while let [t, more @ ..] = rest {
        list.push(result_type(alloc, table, env, c, t)?)?;
        rest = more;
    }
    Ok(list)
}

fn told(
    alloc: Global,
    table: &Table,
    env: &Env,
    phase: Phase,
    c: &Candidate,
) -> Result<Chosen, WantOfMemory>
    ensures { IfOk result (λ r. r ≡ told table.now env.now.bounds phase c.now) }
{
    let by = c.type_args.slice();
    let member = copy_view(alloc, &c.member)?;
    let type_args = copy_types(alloc, by)?;
    let params = put_all(alloc, c.member.params.slice(), c.member.vars.slice(), by)?;
    let formals = copy_types(alloc, c.formals.slice())?;
    let kept = kept_of(alloc, c)?;
    let result = result_of(alloc, table, env, c)?;
    let thrown = thrown_of(alloc, table, env, c)?;
    Ok(Chosen {
        member,
        phase,
        type_args,
        params,
        formals,
        kept,
        result,
        thrown,
        unchecked: c.unchecked,
    })
}

/// The choice of a candidate.
pub fn chosen(
    alloc: Global,
    table: &Table,
    env: &Env,
    phase: Phase,
    c: &Candidate,
) -> Result<Choice, WantOfMemory>
    ensures { IfOk result (λ r. r ≡ chosen table.now env.now.bounds phase c.now) }
{
    let told = told(alloc, table, env, phase, c)?;
    Ok(Choice::Chosen(told))
}

// Of several candidates the first two are named.
fn ambiguous(candidates: &[Candidate]) -> Choice
    ensures { result ≡ ambiguous candidates.now }
{
    match candidates {
        [a, b, ..] => Choice::Ambiguous {
            first: a.member.id,
            second: b.member.id,
        },
        [_] => Choice::NoneApplicable,
        [] => Choice::NoneApplicable,
    }
}

// The first candidate whose result fits those of all.
fn by_result(
    alloc: Global,
    table: &Table,
    env: &Env,
    phase: Phase,
    all: &[Candidate],
) -> Result<Choice, WantOfMemory>
    ensures { IfOk result (λ r. r ≡ by_result table.now env.now.bounds phase all.now all.now) }
{
    let mut rest = all;
    while let [c, more @ ..] = rest {
        match fits_all(alloc, table, env, &c.member, all)? {
            Answer::Yes => return chosen(alloc, table, env, phase, c),
            Answer::No => rest = more,
            Answer::Deep => return Ok(Choice::Deep),
        }
    }
    Ok(ambiguous(all))
}

// The only one that has a body.
fn by_body(
    alloc: Global,
    table: &Table,
    env: &Env,
    phase: Phase,
    all: &[Candidate],
) -> Result<Choice, WantOfMemory>
    ensures { IfOk result (λ r. r ≡ by_body table.now env.now.bounds phase all.now (bodies table.now all.now)) }
{
    match bodies(table, all) {
        0 => by_result(alloc, table, env, phase, all),
        1 => match first_with_body(table, all) {
            Some(c) => chosen(alloc, table, env, phase, c),
            None => Ok(ambiguous(all)),
        },
        _ => Ok(ambiguous(all)),
    }
}

/// The only one of most specific candidates, or the one that stands for all of them, where they have one signature.
pub fn chosen_among(
    alloc: Global,
    table: &Table,
    env: &Env,
    phase: Phase,
    candidates: &[Candidate],
) -> Result<Choice, WantOfMemory>
    ensures { IfOk result (λ r. r ≡ chosen_among table.now env.now.bounds phase candidates.now) }
{
    if let [c] = candidates {
        return chosen(alloc, table, env, phase, c);
    }
    if all_equivalent(alloc, table, candidates)? {
        return by_body(alloc, table, env, phase, candidates);
    }
    Ok(ambiguous(candidates))
}
