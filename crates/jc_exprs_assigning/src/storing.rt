//! `v = e` (JLS 15.26.1).
ghost use Rattle.std.specs.Prelude.{◌≡◌, ◌<◌, [], length, Some, IfOk, OnOk};
ghost use Rattle.jc_typed.specs.Parts.{BelowForm, Grows, form_over, parts, type_of, variable_of};
ghost use Rattle.jc_typed.specs.Trees.{Assign};
ghost use Rattle.jc_exprs_nodes_spec.specs.Told.{ran};
ghost use Rattle.jc_exprs_nodes_spec.specs.Typeds.{captured, converted, use_guard};
ghost use Rattle.jc_exprs_nodes.specs.Walks.{IsPart, has, known, now};
ghost use Rattle.jc_exprs_parts_spec.specs.Assigning.{stored, stored_by};
ghost use Rattle.jc_exprs_targets.specs.Targets.{TargetBelow, target_of};

use crate::reading::{assigned, break_of, push_store};
use jc_convert::Converts;
use jc_exprs_nodes::{Formed, Judging, Part, Walk, captured_at, converted, refused};
use jc_exprs_targets::TargetAt;
use jc_rules::WantOfMemory;
use jc_typed::{ExprForm, Nodes, StepsNode};
use jc_types::Table;
use std::alloc::Global;

// The operand and the guards of an assignment.
#[tactic(auto, using(jc_typed::proofs::Growing::growing, jc_exprs_targets::proofs::Staying::targets_stay))]
fn push_assign(
    alloc: Global,
    nodes: &mut Nodes,
    judging: &Judging,
    target: TargetAt,
    value: Part,
    converts: &Converts,
) -> Result<ExprForm, WantOfMemory>
    requires target { TargetBelow (length nodes.old) (Some target) }
    requires value { IsPart nodes.old value }
    ensures value { IfOk result (λ form. form_over (parts nodes.new) form ≡ Assign (variable_of nodes.old target.variable) (converted judging.now.table.now judging.now.env.now.bounds (known nodes.old value.at) converts.now) (use_guard judging.now.table.now judging.now.env.now.bounds (type_of nodes.old target.ty) target.declared)) }
    ensures below { IfOk result (λ form. BelowForm (length nodes.new) form) }
    ensures grows { Grows nodes.old nodes.new }
{
    let value = converted(alloc, nodes, judging, value, converts)?;
    let none = nodes.push_steps(StepsNode::Empty)?;
    let store = push_store(alloc, nodes, judging, target, none)?;
    Ok(ExprForm::Assign {
        variable: target.variable,
        value,
        store,
    })
}

// An assignment whose value converts.
#[tactic(auto, using(jc_typed::proofs::Growing::growing, jc_exprs_nodes::proofs::Staying::staying, jc_exprs_targets::proofs::Staying::targets_stay))]
fn assign(
    alloc: Global,
    table: &Table,
    walk: &mut Walk,
    target: TargetAt,
    value: Part,
    converts: &Converts,
) -> Result<u32, WantOfMemory>
    requires target { TargetBelow (length walk.old.nodes) (Some target) }
    requires value { IsPart walk.old.nodes value }
    ensures state { OnOk result ((ran (captured table.now target.start (type_of walk.old.nodes target.ty) (Assign (variable_of walk.old.nodes target.variable) (converted table.now walk.old.env.bounds (known walk.old.nodes value.at) converts.now) (use_guard table.now walk.old.env.bounds (type_of walk.old.nodes target.ty) target.declared)) []) (now walk.old)).state ≡ now walk.new) }
    ensures value { IfOk result (λ at. (ran (captured table.now target.start (type_of walk.old.nodes target.ty) (Assign (variable_of walk.old.nodes target.variable) (converted table.now walk.old.env.bounds (known walk.old.nodes value.at) converts.now) (use_guard table.now walk.old.env.bounds (type_of walk.old.nodes target.ty) target.declared)) []) (now walk.old)).has ≡ has walk.new.nodes at) }
    ensures within { IfOk result (λ at. at < length walk.new.nodes) }
    ensures grows { Grows walk.old.nodes walk.new.nodes }
{
    let lead = walk.nodes.push_steps(StepsNode::Empty)?;
    let judging = Judging {
        table,
        env: &walk.env,
    };
    let form = push_assign(alloc, &mut walk.nodes, &judging, target, value, converts)?;
    let formed = Formed {
        place: target.start,
        form,
        lead,
    };
    captured_at(alloc, table, walk, target.ty, formed)
}

// By how the value converts: 607 at its first token where it doesn't.
#[tactic(auto, unfolding(jc_exprs_nodes_spec::specs::Told::ran))]
fn stored_with(
    alloc: Global,
    table: &Table,
    walk: &mut Walk,
    target: TargetAt,
    value: Part,
    converts: &Converts,
) -> Result<u32, WantOfMemory>
    requires target { TargetBelow (length walk.old.nodes) (Some target) }
    requires value { IsPart walk.old.nodes value }
    ensures state { OnOk result ((ran (stored_by table.now walk.old.env.bounds (target_of walk.old.nodes target) (known walk.old.nodes value.at) converts.now) (now walk.old)).state ≡ now walk.new) }
    ensures value { IfOk result (λ at. (ran (stored_by table.now walk.old.env.bounds (target_of walk.old.nodes target) (known walk.old.nodes value.at) converts.now) (now walk.old)).has ≡ has walk.new.nodes at) }
    ensures within { IfOk result (λ at. at < length walk.new.nodes) }
    ensures grows { Grows walk.old.nodes walk.new.nodes }
{
    match break_of(607, value.start, converts) {
        Some(broken) => refused(walk, broken),
        None => assign(alloc, table, walk, target, value, converts),
    }
}

/// An assignment: 607 at the value's first token where it doesn't convert to the variable's type.
#[tactic(auto, unfolding(jc_exprs_nodes_spec::specs::Told::ran, jc_exprs_parts_spec::specs::Assigning::stored))]
pub fn stored(
    alloc: Global,
    table: &Table,
    walk: &mut Walk,
    target: TargetAt,
    value: Part,
) -> Result<u32, WantOfMemory>
    requires target { TargetBelow (length walk.old.nodes) (Some target) }
    requires value { IsPart walk.old.nodes value }
    ensures state { OnOk result ((ran (stored table.now (target_of walk.old.nodes target) (known walk.old.nodes value.at)) (now walk.old)).state ≡ now walk.new) }
    ensures value { IfOk result (λ at. (ran (stored table.now (target_of walk.old.nodes target) (known walk.old.nodes value.at)) (now walk.old)).has ≡ has walk.new.nodes at) }
    ensures within { IfOk result (λ at. at < length walk.new.nodes) }
    ensures grows { Grows walk.old.nodes walk.new.nodes }
{
    let converts = assigned(alloc, table, walk, target, value)?;
    stored_with(alloc, table, walk, target, value, &converts)
}
