//! Catch clauses (JLS 14.20).
ghost use Rattle.std.specs.Prelude.{◌≡◌, ◌<◌, [], length, IfOk};
ghost use Rattle.jc_judge.specs.Deciding.{answer_of};
ghost use Rattle.jc_types.specs.Breaks.{least};
ghost use Rattle.jc_typed.specs.Parts.{Grows, types_of};
ghost use Rattle.jc_exprs_nodes_spec.specs.Told.{unless};
ghost use Rattle.jc_exprs_nodes.specs.Walks.{as_breaks};
ghost use Rattle.jc_stmts_spec.specs.Courses.{all_classes, all_throwable, all_unrelated, caught_breaks, caught_type, not_above, not_below, throwable, unrelated_to};

use crate::wanting::{not_throwable, throwable};
use jc_exprs_nodes::refusal;
use jc_judge::Answer;
use jc_lub::lub;
use jc_repair::repair;
use jc_rules::{Items, Place, Refusal, WantOfMemory};
use jc_sub::{below, class_of};
use jc_typed::{ListNode, Nodes};
use jc_types::{Env, Table, Ty, copy_type, sooner};
use std::alloc::Global;

// A catch clause at a place; no variable is captured in its types.
#[derive(Clone, Copy)]
struct Clause<'a> {
    table: &'a Table,
    env: &'a Env,
    place: Place,
}

fn all_classes(types: &[Ty]) -> bool
    ensures { result ≡ all_classes types.now }
{
    let mut rest = types;
    while let [ty, more @ ..] = rest {
        if class_of(ty).is_none() {
            return false;
        }
        rest = more;
    }
    true
}

// 625 where not all alternatives are classes.
fn unless_classes(place: Place, types: &[Ty]) -> Option<Refusal>
    ensures { as_breaks result ≡ unless (all_classes types.now) 625 place }
{
    if all_classes(types) {
        return None;
    }
    Some(refusal(625, place))
}

// The least of several breaks, with one more.
fn also(found: Option<Refusal>, more: Option<Refusal>) -> Option<Refusal>
    ensures { result ≡ least found (as_breaks more) }
{
    sooner(found, more)
}

// 625 where an alternative is no Throwable.
fn unless_throwable(
    alloc: Global,
    clause: &Clause,
    ty: &Ty,
    found: Option<Refusal>,
) -> Result<Option<Refusal>, WantOfMemory>
    requires { clause.now.env.now.bounds ≡ [] }
    ensures { IfOk result (λ r. r ≡ least found (not_below 625 clause.now.place (answer_of clause.now.table.now 64 [] ty.now (throwable clause.now.table.now)))) }
{
    let throwable = throwable(alloc, clause.table);
    let answer = below(alloc, clause.table, clause.env, ty, &throwable)?;
    Ok(also(found, not_throwable(clause.place, answer)))
}

// The same of each alternative.
fn all_throwable(
    alloc: Global,
    clause: &Clause,
    types: &[Ty],
    found: Option<Refusal>,
) -> Result<Option<Refusal>, WantOfMemory>
    requires { clause.now.env.now.bounds ≡ [] }
    ensures { IfOk result (λ r. r ≡ least found (all_throwable clause.now.table.now clause.now.place types.now)) }
{
    let mut least = found;
    let mut rest = types;
    while let [ty, more @ ..] = rest {
        least = unless_throwable(alloc, clause, ty, least)?;
        rest = more;
    }
    Ok(least)
}

// What is broken where an alternative is below another: 625, or 606 where that can't be told.
fn not_above(place: Place, answer: Answer) -> Option<Refusal>
    ensures { as_breaks result ≡ not_above place answer }
{
    match answer {
        Answer::Yes => Some(refusal(625, place)),
        Answer::No => None,
        Answer::Deep => Some(refusal(606, place)),
    }
}

// An alternative beside those behind it.
#[tactic(auto, using(jc_types::proofs::Least::least_append))]
fn unrelated_to(
    alloc: Global,
    clause: &Clause,
    ty: &Ty,
    types: &[Ty],
    found: Option<Refusal>,
) -> Result<Option<Refusal>, WantOfMemory>
    requires { clause.now.env.now.bounds ≡ [] }
    ensures { IfOk result (λ r. r ≡ least found (unrelated_to clause.now.table.now clause.now.place ty.now types.now)) }
{
    let mut least = found;
    let mut rest = types;
    while let [other, more @ ..] = rest {
        let answer = below(alloc, clause.table, clause.env, ty, other)?;
        least = also(least, not_above(clause.place, answer));
        let answer = below(alloc, clause.table, clause.env, other, ty)?;
        least = also(least, not_above(clause.place, answer));
        rest = more;
    }
    Ok(least)
}

// All pairs of the alternatives, of which there are few.
fn all_unrelated(
    alloc: Global,
    clause: &Clause,
    types: &[Ty],
    found: Option<Refusal>,
) -> Result<Option<Refusal>, WantOfMemory>
    requires { clause.now.env.now.bounds ≡ [] }
    ensures { IfOk result (λ r. r ≡ least found (all_unrelated clause.now.table.now clause.now.place types.now)) }
{
    let mut least = found;
    let mut rest = types;
    while let [ty, more @ ..] = rest {
        least = unrelated_to(alloc, clause, ty, more, least)?;
        rest = more;
    }
    Ok(least)
}

/// The least of what was found and of what is broken at a catch clause of these types: 625 where one of them is no class below Throwable, or is below another one of them; 606 where that can't be told.
#[tactic(auto, using(jc_types::proofs::Least::least_append))]
pub fn caught_breaks(
    alloc: Global,
    table: &Table,
    place: Place,
    types: &[Ty],
    found: Option<Refusal>,
) -> Result<Option<Refusal>, WantOfMemory>
    ensures { IfOk result (λ r. r ≡ least found (caught_breaks table.now place types.now)) }
{
    let none = Env {
        bounds: Items::new(alloc),
    };
    let clause = Clause {
        table,
        env: &none,
        place,
    };
    let least = also(found, unless_classes(place, types));
    let least = all_throwable(alloc, &clause, types, least)?;
    all_unrelated(alloc, &clause, types, least)
}

/// The type of the parameter of a catch clause: the one type, or the lub of all, repaired.
pub fn caught_type(
    alloc: Global,
    table: &Table,
    env: &Env,
    types: &[Ty],
) -> Result<Ty, WantOfMemory>
    ensures { IfOk result (λ r. r ≡ caught_type table.now env.now.bounds types.now) }
{
    match types {
        [] => Ok(Ty::NullTy),
        [ty] => copy_type(alloc, ty),
        _ => {
            let above = lub(alloc, table, env, types)?;
            repair(alloc, table, env, &above)
        }
    }
}

/// A list of types in the arena.
#[tactic(auto, using(jc_typed::proofs::Growing::growing, jc_exprs_nodes::proofs::Appending::appended))]
pub fn push_type_list(alloc: Global, nodes: &mut Nodes, types: &[Ty]) -> Result<u32, WantOfMemory>
    ensures value { IfOk result (λ at. types_of nodes.new at ≡ types.now) }
    ensures within { IfOk result (λ at. at < length nodes.new) }
    ensures grows { Grows nodes.old nodes.new }
{
    let mut list = nodes.push_types(ListNode::Empty)?;
    let mut rest = types;
    while let [ty, more @ ..] = rest {
        let last = nodes.push_type(copy_type(alloc, ty)?)?;
        list = nodes.push_types(ListNode::More { before: list, last })?;
        rest = more;
    }
    Ok(list)
}
