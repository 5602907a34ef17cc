//! `v op= e` (JLS 15.26.2).
ghost use Rattle.std.specs.Prelude.{◌≡◌, ◌<◌, ◌++◌, length, Some, IfOk, OnOk};
ghost use Rattle.jc_typed.specs.Parts.{BelowForm, Grows, form_over, parts, steps_of, type_of};
ghost use Rattle.jc_exprs_nodes_spec.specs.Told.{fine, ran};
ghost use Rattle.jc_exprs_nodes_spec.specs.Typeds.{node, steps_by, use_guard, type_of as counted_type};
ghost use Rattle.jc_exprs_nodes.specs.Walks.{IsPart, has, known, now};
ghost use Rattle.jc_exprs_parts_spec.specs.Assigning.{compound, compound_by, compound_into, compound_number, compound_taken, exact_primitive};
ghost use Rattle.jc_convert.specs.Casting.{cast};
ghost use Rattle.jc_convert.specs.Converting.{invocation};
ghost use Rattle.jc_exprs_operators.specs.Takings.{joint_of, result_in, takes_in, verdict_in};
ghost use Rattle.jc_exprs_targets.specs.Targets.{TargetBelow, target_of};
ghost use Rattle.jc_exprs_assigning.specs.Storing.{compound_form};

use crate::reading::{break_of, push_read_steps, push_store};
use jc_convert::{Converts, cast, invocation};
use jc_exprs_nodes::{Judging, Led, Part, Walk, broken, push_steps_by, refused, uncaptured};
use jc_exprs_operators::{
    Taking, Verdict, exact_primitive, joint_of, left_of, push_operand_to, push_result, result_type,
    right_of, taken,
};
use jc_exprs_targets::TargetAt;
use jc_rules::WantOfMemory;
use jc_tree::BinaryOp;
use jc_typed::{ExprForm, Joint, Nodes, StepsNode};
use jc_types::Table;
use std::alloc::Global;

/// A compound assignment: its variable, what its operator does to the operands, and the right one.
#[derive(Clone, Copy, Debug)]
pub struct Compounding {
    pub target: TargetAt,
    pub taking: Taking,
    pub value: Part,
}

// The cast of the operator's result to the variable's type.
fn number_into(
    alloc: Global,
    table: &Table,
    walk: &Walk,
    at: Compounding,
) -> Result<Converts, WantOfMemory>
    requires { TargetBelow (length walk.now.nodes) (Some at.target) }
    ensures { IfOk result (λ c. cast table.now walk.now.env.bounds (result_in table.now at.taking) (type_of walk.now.nodes at.target.ty) ≡ c) }
{
    let from = result_type(alloc, table, at.taking);
    cast(alloc, table, &walk.env, &from, walk.nodes.ty(at.target.ty))
}

// .. and its conversion by invocation.
fn text_into(
    alloc: Global,
    table: &Table,
    walk: &Walk,
    at: Compounding,
) -> Result<Converts, WantOfMemory>
    requires { TargetBelow (length walk.now.nodes) (Some at.target) }
    ensures { IfOk result (λ c. invocation table.now walk.now.env.bounds (result_in table.now at.taking) (type_of walk.now.nodes at.target.ty) ≡ c) }
{
    let from = result_type(alloc, table, at.taking);
    invocation(alloc, table, &walk.env, &from, walk.nodes.ty(at.target.ty))
}

// The steps of the operator's result into the variable.
#[tactic(auto, using(jc_typed::proofs::Growing::growing, jc_exprs_targets::proofs::Staying::targets_stay))]
fn push_into(
    alloc: Global,
    nodes: &mut Nodes,
    judging: &Judging,
    at: Compounding,
    converts: &Converts,
) -> Result<u32, WantOfMemory>
    requires { TargetBelow (length nodes.old) (Some at.target) }
    ensures value { IfOk result (λ r. steps_of nodes.new r ≡ steps_by judging.now.table.now judging.now.env.now.bounds (result_in judging.now.table.now at.taking) converts.now ++ use_guard judging.now.table.now judging.now.env.now.bounds (type_of nodes.old at.target.ty) at.target.declared) }
    ensures within { IfOk result (λ r. r < length nodes.new) }
    ensures grows { Grows nodes.old nodes.new }
{
    let ty = push_result(alloc, nodes, judging.table, at.taking)?;
    let steps = nodes.push_steps(StepsNode::Empty)?;
    let steps = push_steps_by(alloc, nodes, judging, Led { steps, ty }, converts)?;
    push_store(alloc, nodes, judging, at.target, steps)
}

// The steps of the variable's value, the right operand, and the steps into the variable.
#[tactic(auto, using(jc_typed::proofs::Growing::growing, jc_exprs_nodes::proofs::Staying::staying, jc_exprs_targets::proofs::Staying::targets_stay))]
fn push_compound(
    alloc: Global,
    nodes: &mut Nodes,
    judging: &Judging,
    at: Compounding,
    converts: &Converts,
) -> Result<ExprForm, WantOfMemory>
    requires target { TargetBelow (length nodes.old) (Some at.target) }
    requires value { IsPart nodes.old at.value }
    ensures value { IfOk result (λ form. form_over (parts nodes.new) form ≡ compound_form judging.now.table.now judging.now.env.now.bounds (target_of nodes.old at.target) (takes_in judging.now.table.now (type_of nodes.old at.target.ty) (counted_type (known nodes.old at.value.at)) at.taking) (known nodes.old at.value.at) converts.now) }
    ensures below { IfOk result (λ form. BelowForm (length nodes.new) form) }
    ensures grows { Grows nodes.old nodes.new }
{
    let left = push_read_steps(alloc, nodes, judging, at.target, left_of(at.taking))?;
    let right = push_operand_to(alloc, nodes, judging, at.value, right_of(at.taking))?;
    let into = push_into(alloc, nodes, judging, at, converts)?;
    Ok(ExprForm::Compound {
        variable: at.target.variable,
        joint: joint_of(at.taking),
        left,
        right,
        into,
    })
}

// A compound assignment whose result converts to the variable's type.
#[tactic(auto, using(jc_typed::proofs::Growing::growing, jc_exprs_targets::proofs::Staying::targets_stay))]
fn compound_whole(
    alloc: Global,
    table: &Table,
    walk: &mut Walk,
    at: Compounding,
    converts: &Converts,
) -> Result<u32, WantOfMemory>
    requires target { TargetBelow (length walk.old.nodes) (Some at.target) }
    requires value { IsPart walk.old.nodes at.value }
    ensures state { OnOk result ((ran (fine (node at.target.start (type_of walk.old.nodes at.target.ty) (compound_form table.now walk.old.env.bounds (target_of walk.old.nodes at.target) (takes_in table.now (type_of walk.old.nodes at.target.ty) (counted_type (known walk.old.nodes at.value.at)) at.taking) (known walk.old.nodes at.value.at) converts.now))) (now walk.old)).state ≡ now walk.new) }
    ensures value { IfOk result (λ r. (ran (fine (node at.target.start (type_of walk.old.nodes at.target.ty) (compound_form table.now walk.old.env.bounds (target_of walk.old.nodes at.target) (takes_in table.now (type_of walk.old.nodes at.target.ty) (counted_type (known walk.old.nodes at.value.at)) at.taking) (known walk.old.nodes at.value.at) converts.now))) (now walk.old)).has ≡ has walk.new.nodes r) }
    ensures within { IfOk result (λ r. r < length walk.new.nodes) }
    ensures grows { Grows walk.old.nodes walk.new.nodes }
{
    let judging = Judging {
        table,
        env: &walk.env,
    };
    let form = push_compound(alloc, &mut walk.nodes, &judging, at, converts)?;
    uncaptured(walk, at.target.start, at.target.ty, form)
}

// By how the result converts: 609 at the variable's first token where it doesn't.
#[tactic(auto, unfolding(jc_exprs_nodes_spec::specs::Told::ran))]
fn compound_into(
    alloc: Global,
    table: &Table,
    walk: &mut Walk,
    at: Compounding,
    converts: &Converts,
) -> Result<u32, WantOfMemory>
    requires target { TargetBelow (length walk.old.nodes) (Some at.target) }
    requires value { IsPart walk.old.nodes at.value }
    ensures state { OnOk result ((ran (compound_into table.now walk.old.env.bounds (target_of walk.old.nodes at.target) (takes_in table.now (type_of walk.old.nodes at.target.ty) (counted_type (known walk.old.nodes at.value.at)) at.taking) (known walk.old.nodes at.value.at) converts.now) (now walk.old)).state ≡ now walk.new) }
    ensures value { IfOk result (λ r. (ran (compound_into table.now walk.old.env.bounds (target_of walk.old.nodes at.target) (takes_in table.now (type_of walk.old.nodes at.target.ty) (counted_type (known walk.old.nodes at.value.at)) at.taking) (known walk.old.nodes at.value.at) converts.now) (now walk.old)).has ≡ has walk.new.nodes r) }
    ensures within { IfOk result (λ r. r < length walk.new.nodes) }
    ensures grows { Grows walk.old.nodes walk.new.nodes }
{
    match break_of(609, at.target.start, converts) {
        Some(found) => refused(walk, found),
        None => compound_whole(alloc, table, walk, at, converts),
    }
}

// Numbers, booleans and references: into a variable of a primitive type or of its class alone.
fn compound_number(
    alloc: Global,
    table: &Table,
    walk: &mut Walk,
    at: Compounding,
) -> Result<u32, WantOfMemory>
    requires target { TargetBelow (length walk.old.nodes) (Some at.target) }
    requires value { IsPart walk.old.nodes at.value }
    ensures state { OnOk result ((ran (compound_number table.now walk.old.env.bounds (target_of walk.old.nodes at.target) (takes_in table.now (type_of walk.old.nodes at.target.ty) (counted_type (known walk.old.nodes at.value.at)) at.taking) (known walk.old.nodes at.value.at) (exact_primitive table.now (type_of walk.old.nodes at.target.ty))) (now walk.old)).state ≡ now walk.new) }
    ensures value { IfOk result (λ r. (ran (compound_number table.now walk.old.env.bounds (target_of walk.old.nodes at.target) (takes_in table.now (type_of walk.old.nodes at.target.ty) (counted_type (known walk.old.nodes at.value.at)) at.taking) (known walk.old.nodes at.value.at) (exact_primitive table.now (type_of walk.old.nodes at.target.ty))) (now walk.old)).has ≡ has walk.new.nodes r) }
    ensures within { IfOk result (λ r. r < length walk.new.nodes) }
    ensures grows { Grows walk.old.nodes walk.new.nodes }
{
    match exact_primitive(table, walk.nodes.ty(at.target.ty)) {
        None => broken(walk, 609, at.target.start),
        Some(_) => {
            let converts = number_into(alloc, table, walk, at)?;
            compound_into(alloc, table, walk, at, &converts)
        }
    }
}

// A String into a variable whose type is above String.
fn compound_text(
    alloc: Global,
    table: &Table,
    walk: &mut Walk,
    at: Compounding,
) -> Result<u32, WantOfMemory>
    requires target { TargetBelow (length walk.old.nodes) (Some at.target) }
    requires value { IsPart walk.old.nodes at.value }
    ensures state { OnOk result ((ran (compound_into table.now walk.old.env.bounds (target_of walk.old.nodes at.target) (takes_in table.now (type_of walk.old.nodes at.target.ty) (counted_type (known walk.old.nodes at.value.at)) at.taking) (known walk.old.nodes at.value.at) (invocation table.now walk.old.env.bounds (result_in table.now at.taking) (type_of walk.old.nodes at.target.ty))) (now walk.old)).state ≡ now walk.new) }
    ensures value { IfOk result (λ r. (ran (compound_into table.now walk.old.env.bounds (target_of walk.old.nodes at.target) (takes_in table.now (type_of walk.old.nodes at.target.ty) (counted_type (known walk.old.nodes at.value.at)) at.taking) (known walk.old.nodes at.value.at) (invocation table.now walk.old.env.bounds (result_in table.now at.taking) (type_of walk.old.nodes at.target.ty))) (now walk.old)).has ≡ has walk.new.nodes r) }
    ensures within { IfOk result (λ r. r < length walk.new.nodes) }
    ensures grows { Grows walk.old.nodes walk.new.nodes }
{
    let converts = text_into(alloc, table, walk, at)?;
    compound_into(alloc, table, walk, at, &converts)
}

fn compound_taken(
    alloc: Global,
    table: &Table,
    walk: &mut Walk,
    at: Compounding,
) -> Result<u32, WantOfMemory>
    requires target { TargetBelow (length walk.old.nodes) (Some at.target) }
    requires value { IsPart walk.old.nodes at.value }
    ensures state { OnOk result ((ran (compound_taken table.now walk.old.env.bounds (target_of walk.old.nodes at.target) (takes_in table.now (type_of walk.old.nodes at.target.ty) (counted_type (known walk.old.nodes at.value.at)) at.taking) (known walk.old.nodes at.value.at) (joint_of at.taking)) (now walk.old)).state ≡ now walk.new) }
    ensures value { IfOk result (λ r. (ran (compound_taken table.now walk.old.env.bounds (target_of walk.old.nodes at.target) (takes_in table.now (type_of walk.old.nodes at.target.ty) (counted_type (known walk.old.nodes at.value.at)) at.taking) (known walk.old.nodes at.value.at) (joint_of at.taking)) (now walk.old)).has ≡ has walk.new.nodes r) }
    ensures within { IfOk result (λ r. r < length walk.new.nodes) }
    ensures grows { Grows walk.old.nodes walk.new.nodes }
{
    match joint_of(at.taking) {
        Joint::Concat { .. } => compound_text(alloc, table, walk, at),
        Joint::Operator(_) => compound_number(alloc, table, walk, at),
    }
}

// By what the operator does to its operands.
fn compound_by(
    alloc: Global,
    table: &Table,
    walk: &mut Walk,
    verdict: Verdict,
    target: TargetAt,
    value: Part,
) -> Result<u32, WantOfMemory>
    requires target { TargetBelow (length walk.old.nodes) (Some target) }
    requires value { IsPart walk.old.nodes value }
    ensures state { OnOk result ((ran (compound_by table.now walk.old.env.bounds (target_of walk.old.nodes target) (known walk.old.nodes value.at) (verdict_in table.now (type_of walk.old.nodes target.ty) (counted_type (known walk.old.nodes value.at)) verdict)) (now walk.old)).state ≡ now walk.new) }
    ensures value { IfOk result (λ r. (ran (compound_by table.now walk.old.env.bounds (target_of walk.old.nodes target) (known walk.old.nodes value.at) (verdict_in table.now (type_of walk.old.nodes target.ty) (counted_type (known walk.old.nodes value.at)) verdict)) (now walk.old)).has ≡ has walk.new.nodes r) }
    ensures within { IfOk result (λ r. r < length walk.new.nodes) }
    ensures grows { Grows walk.old.nodes walk.new.nodes }
{
    match verdict {
        Verdict::Refused => broken(walk, 609, target.start),
        Verdict::Unknown => broken(walk, 606, target.start),
        Verdict::Taken(taking) => {
            let at = Compounding {
                target,
                taking,
                value,
            };
            compound_taken(alloc, table, walk, at)
        }
    }
}

/// A compound assignment: 626 where its variable is a field that is named before its declaration; 609 at the variable's first token where the operator doesn't take the operands, or its result
/// doesn't convert to the variable's type, and 606 where that can't be told.
#[tactic(auto, unfolding(jc_exprs_nodes_spec::specs::Told::ran, jc_exprs_parts_spec::specs::Assigning::compound))]
pub fn compound(
    alloc: Global,
    table: &Table,
    walk: &mut Walk,
    op: BinaryOp,
    target: TargetAt,
    value: Part,
) -> Result<u32, WantOfMemory>
    requires target { TargetBelow (length walk.old.nodes) (Some target) }
    requires value { IsPart walk.old.nodes value }
    ensures state { OnOk result ((ran (compound table.now op (target_of walk.old.nodes target) (known walk.old.nodes value.at)) (now walk.old)).state ≡ now walk.new) }
    ensures value { IfOk result (λ at. (ran (compound table.now op (target_of walk.old.nodes target) (known walk.old.nodes value.at)) (now walk.old)).has ≡ has walk.new.nodes at) }
    ensures within { IfOk result (λ at. at < length walk.new.nodes) }
    ensures grows { Grows walk.old.nodes walk.new.nodes }
{
    if target.is_forward {
        return broken(walk, 626, target.place);
    }
    let judging = Judging {
        table,
        env: &walk.env,
    };
    let verdict = taken(
        alloc,
        &judging,
        op,
        walk.nodes.ty(target.ty),
        walk.nodes.ty(value.ty),
    )?;
    compound_by(alloc, table, walk, verdict, target, value)
}
