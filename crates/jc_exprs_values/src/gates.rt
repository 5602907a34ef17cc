//! The same by which of the parts have typings.
ghost use Rattle.std.specs.Prelude.{◌≡◌, ◌<◌, length, IfOk, OnOk};
ghost use Rattle.jc_typed.specs.Parts.{Grows};
ghost use Rattle.jc_exprs_nodes_spec.specs.Gates.{gated, gated_two};
ghost use Rattle.jc_exprs_nodes.specs.Laws.{paired, span_of};
ghost use Rattle.jc_exprs_nodes.specs.Walks.{AllBelow, has, now};
ghost use Rattle.jc_exprs_gathering.specs.Gathered.{has_all, has_operand, has_operands};
ghost use Rattle.jc_exprs_parts_spec.specs.Values.{assigned, cast_to, chosen, listed, sized};
ghost use Rattle.jc_exprs_values.specs.Chosen.{ChoiceParts};

use crate::arrays::{assigned, listed, sized};
use crate::casting::cast_to;
use crate::choices::{Choice, chosen};
use jc_exprs_gathering::{are_given, are_typed};
use jc_exprs_nodes::{Walk, missing, part};
use jc_rules::{Place, WantOfMemory};
use jc_typed::OperandNode;
use jc_types::{Table, Ty};
use std::alloc::Global;

/// A creation of an array, where all of its lengths have typings.
#[tactic(auto, using(jc_exprs_gathering::proofs::Gathering::gathering))]
pub fn sized_or(
    alloc: Global,
    table: &Table,
    walk: &mut Walk,
    place: Place,
    ty: &Ty,
    ats: &[u32],
) -> Result<u32, WantOfMemory>
    requires { AllBelow (length walk.old.nodes) ats.now }
    ensures state { OnOk result ((gated (sized table.now place ty.now) (has_all walk.old.nodes ats.now) (now walk.old)).state ≡ now walk.new) }
    ensures value { IfOk result (λ at. (gated (sized table.now place ty.now) (has_all walk.old.nodes ats.now) (now walk.old)).has ≡ has walk.new.nodes at) }
    ensures within { IfOk result (λ at. at < length walk.new.nodes) }
    ensures grows { Grows walk.old.nodes walk.new.nodes }
{
    if !are_typed(&walk.nodes, ats) {
        return missing(walk);
    }
    sized(alloc, table, walk, place, ty, ats)
}

/// A value of an array initialiser, where it has a typing; else there is no operand.
pub fn assigned_or(
    alloc: Global,
    table: &Table,
    walk: &mut Walk,
    to: &Ty,
    at: u32,
) -> Result<u32, WantOfMemory>
    requires { at < length walk.old.nodes }
    ensures state { OnOk result ((gated (assigned table.now to.now) (has walk.old.nodes at) (now walk.old)).state ≡ now walk.new) }
    ensures value { IfOk result (λ r. (gated (assigned table.now to.now) (has walk.old.nodes at) (now walk.old)).has ≡ has_operand walk.new.nodes r) }
    ensures within { IfOk result (λ r. r < length walk.new.nodes) }
    ensures grows { Grows walk.old.nodes walk.new.nodes }
{
    match part(&walk.nodes, at) {
        None => walk.nodes.push_operand(OperandNode::Missing),
        Some(part) => assigned(alloc, table, walk, to, part),
    }
}

/// An array initialiser, where all of its operands are there.
pub fn listed_or(
    alloc: Global,
    table: &Table,
    walk: &mut Walk,
    place: Place,
    ty: &Ty,
    ats: &[u32],
) -> Result<u32, WantOfMemory>
    requires { AllBelow (length walk.old.nodes) ats.now }
    ensures state { OnOk result ((gated (listed table.now place ty.now) (has_operands walk.old.nodes ats.now) (now walk.old)).state ≡ now walk.new) }
    ensures value { IfOk result (λ at. (gated (listed table.now place ty.now) (has_operands walk.old.nodes ats.now) (now walk.old)).has ≡ has walk.new.nodes at) }
    ensures within { IfOk result (λ at. at < length walk.new.nodes) }
    ensures grows { Grows walk.old.nodes walk.new.nodes }
{
    if !are_given(&walk.nodes, ats) {
        return missing(walk);
    }
    listed(alloc, table, walk, place, ty, ats)
}

/// A cast, where its operand has a typing.
pub fn cast_or(
    alloc: Global,
    table: &Table,
    walk: &mut Walk,
    place: Place,
    ty: &Ty,
    at: u32,
) -> Result<u32, WantOfMemory>
    requires { at < length walk.old.nodes }
    ensures state { OnOk result ((gated (cast_to table.now place ty.now) (has walk.old.nodes at) (now walk.old)).state ≡ now walk.new) }
    ensures value { IfOk result (λ r. (gated (cast_to table.now place ty.now) (has walk.old.nodes at) (now walk.old)).has ≡ has walk.new.nodes r) }
    ensures within { IfOk result (λ r. r < length walk.new.nodes) }
    ensures grows { Grows walk.old.nodes walk.new.nodes }
{
    match part(&walk.nodes, at) {
        None => missing(walk),
        Some(part) => cast_to(alloc, table, walk, place, ty, part),
    }
}

/// A test and two branches, whether they have typings or not, and how many captured variables there were before the branches.
#[derive(Clone, Copy, Debug)]
pub struct ChoiceAt {
    pub test: u32,
    pub first: u32,
    pub second: u32,
    pub from: u64,
}

/// A conditional, where its test and both branches have typings.
pub fn chosen_or(
    alloc: Global,
    table: &Table,
    walk: &mut Walk,
    at: ChoiceAt,
) -> Result<u32, WantOfMemory>
    requires { (at.test < length walk.old.nodes) × (at.first < length walk.old.nodes) × (at.second < length walk.old.nodes) }
    ensures state { OnOk result ((gated_two (chosen table.now) (has walk.old.nodes at.test) (span_of (paired (has walk.old.nodes at.first) (has walk.old.nodes at.second)) at.from (length walk.old.env.bounds)) (now walk.old)).state ≡ now walk.new) }
    ensures value { IfOk result (λ r. (gated_two (chosen table.now) (has walk.old.nodes at.test) (span_of (paired (has walk.old.nodes at.first) (has walk.old.nodes at.second)) at.from (length walk.old.env.bounds)) (now walk.old)).has ≡ has walk.new.nodes r) }
    ensures within { IfOk result (λ r. r < length walk.new.nodes) }
    ensures grows { Grows walk.old.nodes walk.new.nodes }
{
    let Some(test) = part(&walk.nodes, at.test) else {
        return missing(walk);
    };
    let Some(first) = part(&walk.nodes, at.first) else {
        return missing(walk);
    };
    let Some(second) = part(&walk.nodes, at.second) else {
        return missing(walk);
    };
    let choice = Choice {
        test,
        first,
        second,
        from: at.from,
        up_to: walk.env.bounds.len() as u64,
    };
    chosen(alloc, table, walk, choice)
}

/// A test, and two branches behind it, the second behind the first: the rule is asked where all three have typings.
#[tactic(auto, using(crate::proofs::Parting::choice_parts))]
pub fn choice_parts()
    ensures { ChoiceParts }
{}
