//! The members of a class, name by name.
ghost use Rattle.std.specs.Prelude.{◌≡◌, ◌++◌, ◌∷◌, ℕ, [], true, cond, nat_eq, IfOk, OnOk};
ghost use Rattle.std.specs.HashSet.{contains};
ghost use Rattle.jc_types.specs.Accessors.{method_name_of};
ghost use Rattle.jc_types.specs.Names.{named};
ghost use Rattle.jc_judge.specs.Trees.{both};
ghost use Rattle.jc_overriding.specs.Overriding.{has_name};
ghost use Rattle.jc_overriding.specs.Viewing.{own_type};
ghost use Rattle.jc_members.specs.Listing.{candidate_ids};
ghost use Rattle.jc_members.specs.Named.{IsMethodIndex, all_named};
ghost use Rattle.jc_members.specs.Supertypes.{IsSupertypes};
ghost use Rattle.jc_method_rules.specs.Owned.{standing};
ghost use Rattle.jc_class_rules.specs.Grouping.{HasSeen, all_from, is_marked, marked_with, name_agrees, with_name};

use crate::agreeing::{both, members_agree};
use crate::covering::are_covered;
use jc_judge::Answer;
use jc_members::{MethodIndex, Supertypes, candidate_ids, remaining_ids, views_of};
use jc_rules::{Items, WantOfMemory};
use jc_types::{ClassId, MethodId, Table, method_name};
use std::alloc::Global;
use std::collections::HashSet;

fn push_named(
    table: &Table,
    name: &str,
    m: MethodId,
    out: &mut Items<MethodId>,
) -> Result<(), WantOfMemory>
    ensures { OnOk result (out.new ≡ out.old ++ cond (has_name table.now name.now m) (m ∷ []) []) }
{
    if method_name(table, m) != name {
        return Ok(());
    }
    out.push(m)
}

// Of these methods those of a name.
fn with_name(
    alloc: Global,
    table: &Table,
    name: &str,
    ids: &[MethodId],
) -> Result<Items<MethodId>, WantOfMemory>
    ensures { IfOk result (λ r. r ≡ with_name table.now name.now ids.now) }
{
    let mut out = Items::new(alloc);
    let mut rest = ids;
    while let [m, more @ ..] = rest {
        push_named(table, name, *m, &mut out)?;
        rest = more;
    }
    Ok(out)
}

// The methods of the name of m that a type declares or may inherit, looked for among all of the name.
fn named_candidates(
    alloc: Global,
    table: &Table,
    index: &MethodIndex,
    above: &Supertypes,
    m: MethodId,
) -> Result<Items<MethodId>, WantOfMemory>
    requires index { IsMethodIndex table.now index.now }
    requires known { IsSupertypes table.now above.now }
    ensures { IfOk result (λ r. r ≡ candidate_ids table.now above.now.of (all_named table.now (method_name_of table.now m))) }
{
    let named = index.named(method_name(table, m));
    let found = candidate_ids(alloc, table, above, named)?;
    Ok(found)
}

// The same, looked for among all of the class and of those above it.
fn standing_candidates(
    alloc: Global,
    table: &Table,
    above: &Supertypes,
    k: ClassId,
    all: &[MethodId],
    m: MethodId,
) -> Result<Items<MethodId>, WantOfMemory>
    requires known { IsSupertypes table.now above.now }
    requires own { above.now.of ≡ own_type table.now k }
    requires all { all.now ≡ standing table.now k }
    ensures { IfOk result (λ r. r ≡ candidate_ids table.now above.now.of (all_named table.now (method_name_of table.now m))) }
{
    let few = with_name(alloc, table, method_name(table, m), all)?;
    let found = candidate_ids(alloc, table, above, few.slice())?;
    Ok(found)
}

// The same, looked for where there are fewer.
fn candidates_of(
    alloc: Global,
    table: &Table,
    index: &MethodIndex,
    above: &Supertypes,
    k: ClassId,
    all: &[MethodId],
    m: MethodId,
) -> Result<Items<MethodId>, WantOfMemory>
    requires index { IsMethodIndex table.now index.now }
    requires known { IsSupertypes table.now above.now }
    requires own { above.now.of ≡ own_type table.now k }
    requires all { all.now ≡ standing table.now k }
    ensures { IfOk result (λ r. r ≡ candidate_ids table.now above.now.of (all_named table.now (method_name_of table.now m))) }
{
    if index.named(method_name(table, m)).len() <= all.len() {
        return named_candidates(alloc, table, index, above, m);
    }
    standing_candidates(alloc, table, above, k, all, m)
}

// Whether the members of the name of method m agree in a class, of which these are the supertypes.
#[tactic(auto, using(crate::proofs::Grouped::agree_early))]
fn name_agrees(
    alloc: Global,
    table: &Table,
    index: &MethodIndex,
    above: &Supertypes,
    k: ClassId,
    all: &[MethodId],
    m: MethodId,
) -> Result<Answer, WantOfMemory>
    requires index { IsMethodIndex table.now index.now }
    requires known { IsSupertypes table.now above.now }
    requires own { above.now.of ≡ own_type table.now k }
    requires all { all.now ≡ standing table.now k }
    ensures { IfOk result (λ r. r ≡ name_agrees table.now k m) }
{
    let candidates = candidates_of(alloc, table, index, above, k, all, m)?;
    if candidates.len() < 2 {
        return Ok(Answer::Yes);
    }
    if are_covered(alloc, table, above, k, candidates.slice())? {
        return Ok(Answer::Yes);
    }
    let remaining = remaining_ids(alloc, table, candidates.slice())?;
    let views = views_of(alloc, table, above, remaining.slice())?;
    let answer = members_agree(alloc, table, k, views.slice())?;
    Ok(answer)
}

// The group of the methods that have the name of m.
fn group_of(table: &Table, index: &MethodIndex, m: MethodId) -> Option<u64>
    ensures { result ≡ named (method_name_of table.now m) index.now.names }
{
    index.names.find(method_name(table, m))
}

fn is_marked(seen: &HashSet<u64>, group: Option<u64>) -> bool
    ensures { result ≡ is_marked (λ y. contains nat_eq seen.now y) group }
{
    match group {
        None => false,
        Some(group) => seen.contains(&group),
    }
}

fn mark(seen: &mut HashSet<u64>, group: Option<u64>) -> Result<(), WantOfMemory>
    ensures { OnOk result ((y : ℕ) → contains nat_eq seen.new y ≡ marked_with (λ y. contains nat_eq seen.old y) group y) }
{
    match group {
        None => Ok(()),
        Some(group) => {
            seen.insert(group)?;
            Ok(())
        }
    }
}

// The answer with that of the name of a method, unless it has that.
fn joined(
    alloc: Global,
    table: &Table,
    index: &MethodIndex,
    above: &Supertypes,
    k: ClassId,
    all: &[MethodId],
    m: MethodId,
    answer: Answer,
    has: bool,
) -> Result<Answer, WantOfMemory>
    requires index { IsMethodIndex table.now index.now }
    requires known { IsSupertypes table.now above.now }
    requires own { above.now.of ≡ own_type table.now k }
    requires all { all.now ≡ standing table.now k }
    requires seen { has ≡ true → answer ≡ both answer (name_agrees table.now k m) }
    ensures { IfOk result (λ r. r ≡ both answer (name_agrees table.now k m)) }
{
    if has {
        return Ok(answer);
    }
    let agrees = name_agrees(alloc, table, index, above, k, all, m)?;
    Ok(both(answer, agrees))
}

fn answer_with(
    alloc: Global,
    table: &Table,
    index: &MethodIndex,
    above: &Supertypes,
    k: ClassId,
    all: &[MethodId],
    m: MethodId,
    answer: Answer,
    seen: &mut HashSet<u64>,
) -> Result<Answer, WantOfMemory>
    requires index { IsMethodIndex table.now index.now }
    requires known { IsSupertypes table.now above.now }
    requires own { above.now.of ≡ own_type table.now k }
    requires all { all.now ≡ standing table.now k }
    requires seen { HasSeen table.now k index.now.groups answer (λ y. contains nat_eq seen.old y) }
    ensures answer { IfOk result (λ r. r ≡ both answer (name_agrees table.now k m)) }
    ensures seen { IfOk result (λ r. HasSeen table.now k index.now.groups r (λ y. contains nat_eq seen.new y)) }
{
    let group = group_of(table, index, m);
    let has = is_marked(seen, group);
    let joined = joined(alloc, table, index, above, k, all, m, answer, has)?;
    mark(seen, group)?;
    Ok(joined)
}

/// Whether the members of a class agree that have the names of these methods, which are those of the class and of the classes above it.
/// The supertypes are those of the class.
pub fn names_agree(
    alloc: Global,
    table: &Table,
    index: &MethodIndex,
    above: &Supertypes,
    k: ClassId,
    all: &[MethodId],
) -> Result<Answer, WantOfMemory>
    requires index { IsMethodIndex table.now index.now }
    requires known { IsSupertypes table.now above.now }
    requires own { above.now.of ≡ own_type table.now k }
    requires all { all.now ≡ standing table.now k }
    ensures { IfOk result (λ r. r ≡ all_from (name_agrees table.now k) Answer.Yes all.now) }
{
    let mut seen: HashSet<u64> = HashSet::new(alloc);
    let mut answer = Answer::Yes;
    let mut rest = all;
    while let [m, more @ ..] = rest {
        answer = answer_with(alloc, table, index, above, k, all, *m, answer, &mut seen)?;
        rest = more;
    }
    Ok(answer)
}
