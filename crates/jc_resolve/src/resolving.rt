//! The three phases (JLS 15.12.2).
ghost use Rattle.std.specs.Prelude.{◌≡◌, IfOk, true};
ghost use Rattle.jc_resolve.specs.Apart.{is_apart};
ghost use Rattle.jc_resolve.specs.Choosing.{in_phase, most_specific, resolved};
ghost use Rattle.jc_resolve.specs.Specific.{maximal};

use crate::applied::Candidate;
use crate::applying::gathered;
use crate::choice::Choice;
use crate::choosing::chosen_among;
use crate::ranking::maximal;
use crate::site::CallSite;
use jc_rules::WantOfMemory;
use jc_types::{Env, Phase, Table};
use std::alloc::Global;

// Of applicable candidates the most specific one.
fn most_specific(
    alloc: Global,
    table: &Table,
    env: &mut Env,
    phase: Phase,
    all: &[Candidate],
) -> Result<Choice, WantOfMemory>
    ensures answer { IfOk result (λ r. r ≡ most_specific table.now env.old.bounds phase all.now (maximal table.now env.old.bounds phase all.now all.now)) }
    ensures env { env.new.bounds ≡ env.old.bounds }
{
    match maximal(alloc, table, env, phase, all)? {
        None => Ok(Choice::Deep),
        Some(best) => match best.slice() {
            [] => chosen_among(alloc, table, env, phase, all),
            [_, ..] => chosen_among(alloc, table, env, phase, best.slice()),
        },
    }
}

// The choice of a phase; none where it has no applicable candidate.
fn in_phase(
    alloc: Global,
    table: &Table,
    env: &mut Env,
    site: &CallSite,
    phase: Phase,
) -> Result<Option<Choice>, WantOfMemory>
    ensures answer { IfOk result (λ r. r ≡ in_phase table.now env.old.bounds site.now phase) }
    ensures env { env.new.bounds ≡ env.old.bounds }
{
    match gathered(alloc, table, env, site, phase)? {
        None => Ok(Some(Choice::Deep)),
        Some(all) => match all.slice() {
            [] => Ok(None),
            [_, ..] => {
                let choice = most_specific(alloc, table, env, phase, all.slice())?;
                Ok(Some(choice))
            }
        },
    }
}

/// The member that a call means (JLS 15.12.2.2 to 15.12.2.5): of the first phase with an applicable member the most specific one.
///
/// The questions on a member are asked in order, those on its type arguments and then those on the arguments, and the first that isn't proved decides. `NoMember` is answered exactly
/// where there are no members, `NoneApplicable` where none is applicable in any phase, and `Deep` where a question is Deep in a phase up to the one that decides: on a member, between
/// two applicable ones, or on the results that decide between those that none is more specific than.
///
/// The type parameters of the members are renamed apart from the call's types: `is_apart` tests it, and the views of `jc_resolve_sites` have it. `env` is left as it was; while two
/// members are compared, the type parameters of one of them stand in it behind the captured variables.
#[tactic(auto, unfolding(crate::specs::Choosing::resolved))]
pub fn resolve(
    alloc: Global,
    table: &Table,
    env: &mut Env,
    site: &CallSite,
) -> Result<Choice, WantOfMemory>
    requires { is_apart site.now ≡ true }
    ensures answer { IfOk result (λ r. r ≡ resolved table.now env.old.bounds site.now) }
    ensures env { env.new.bounds ≡ env.old.bounds }
{
    if let [] = site.members.slice() {
        return Ok(Choice::NoMember);
    }
    if let Some(choice) = in_phase(alloc, table, env, site, Phase::Subtyping)? {
        return Ok(choice);
    }
    if let Some(choice) = in_phase(alloc, table, env, site, Phase::Invocation)? {
        return Ok(choice);
    }
    if let Some(choice) = in_phase(alloc, table, env, site, Phase::VariableArity)? {
        return Ok(choice);
    }
    Ok(Choice::NoneApplicable)
}
