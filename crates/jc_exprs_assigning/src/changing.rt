//! `++` and `--` (JLS 15.14.2, 15.14.3, 15.15.1, 15.15.2).
ghost use Rattle.std.specs.Prelude.{◌≡◌, ◌<◌, ◌++◌, length, Some, IfOk, OnOk};
ghost use Rattle.jc_typed.specs.Parts.{BelowForm, Grows, form_over, parts, steps_of, type_of};
ghost use Rattle.jc_exprs_nodes_spec.specs.Told.{ran};
ghost use Rattle.jc_exprs_nodes_spec.specs.Typeds.{use_guard};
ghost use Rattle.jc_exprs_nodes.specs.Walks.{has, now};
ghost use Rattle.jc_exprs_parts_spec.specs.Assigning.{boxed_to, changed, changed_as, changed_by, narrowed_to};
ghost use Rattle.jc_exprs_targets.specs.Targets.{TargetBelow, target_of};
ghost use Rattle.jc_exprs_assigning.specs.Storing.{change_form};

use crate::reading::{push_read_steps, push_store};
use jc_exprs_nodes::{Judging, Walk, broken, push_step, uncaptured};
use jc_exprs_operators::{exact_primitive, is_numeric, promoted};
use jc_exprs_targets::TargetAt;
use jc_rules::{Place, WantOfMemory};
use jc_sub::is_primitive;
use jc_typed::{ExprForm, Nodes, StepNode, StepsNode};
use jc_types::{Op, Primitive, Table};
use std::alloc::Global;

/// `++` or `--`: the first token of its expression, and whether the operator stands before the variable.
#[derive(Clone, Copy, Debug)]
pub struct Change {
    pub place: Place,
    pub op: Op,
    pub is_prefix: bool,
}

// The sum is narrowed to the variable's primitive type.
#[tactic(auto, using(jc_exprs_nodes::proofs::Appending::appended))]
fn push_narrowed(nodes: &mut Nodes, before: u32, p: Primitive) -> Result<u32, WantOfMemory>
    requires { before < length nodes.old }
    ensures value { IfOk result (λ at. steps_of nodes.new at ≡ steps_of nodes.old before ++ narrowed_to p) }
    ensures within { IfOk result (λ at. at < length nodes.new) }
    ensures grows { Grows nodes.old nodes.new }
{
    match p {
        Primitive::Int => Ok(before),
        Primitive::Long => Ok(before),
        _ => push_step(nodes, before, StepNode::Narrow(p)),
    }
}

// .. and then boxed, if the variable is of a class.
#[tactic(auto, using(jc_exprs_nodes::proofs::Appending::appended))]
fn push_boxed(nodes: &mut Nodes, before: u32, ty: u32, p: Primitive) -> Result<u32, WantOfMemory>
    requires before { before < length nodes.old }
    requires ty { ty < length nodes.old }
    ensures value { IfOk result (λ at. steps_of nodes.new at ≡ steps_of nodes.old before ++ boxed_to (type_of nodes.old ty) p) }
    ensures within { IfOk result (λ at. at < length nodes.new) }
    ensures grows { Grows nodes.old nodes.new }
{
    if is_primitive(nodes.ty(ty)) {
        return Ok(before);
    }
    push_step(nodes, before, StepNode::BoxUp(p))
}

// The steps of the sum into the variable.
#[tactic(auto, using(jc_typed::proofs::Growing::growing, jc_exprs_nodes::proofs::Appending::appended))]
fn push_back(
    alloc: Global,
    nodes: &mut Nodes,
    judging: &Judging,
    target: TargetAt,
    p: Primitive,
) -> Result<u32, WantOfMemory>
    requires { TargetBelow (length nodes.old) (Some target) }
    ensures value { IfOk result (λ at. steps_of nodes.new at ≡ narrowed_to p ++ boxed_to (type_of nodes.old target.ty) p ++ use_guard judging.now.table.now judging.now.env.now.bounds (type_of nodes.old target.ty) target.declared) }
    ensures within { IfOk result (λ at. at < length nodes.new) }
    ensures grows { Grows nodes.old nodes.new }
{
    let none = nodes.push_steps(StepsNode::Empty)?;
    let narrowed = push_narrowed(nodes, none, p)?;
    let boxed = push_boxed(nodes, narrowed, target.ty, p)?;
    push_store(alloc, nodes, judging, target, boxed)
}

#[tactic(auto, using(jc_typed::proofs::Growing::growing, jc_exprs_targets::proofs::Staying::targets_stay))]
fn push_change(
    alloc: Global,
    nodes: &mut Nodes,
    judging: &Judging,
    change: Change,
    target: TargetAt,
    p: Primitive,
) -> Result<ExprForm, WantOfMemory>
    requires { TargetBelow (length nodes.old) (Some target) }
    ensures value { IfOk result (λ form. form_over (parts nodes.new) form ≡ change_form judging.now.table.now judging.now.env.now.bounds change.op change.is_prefix (target_of nodes.old target) p) }
    ensures below { IfOk result (λ form. BelowForm (length nodes.new) form) }
    ensures grows { Grows nodes.old nodes.new }
{
    let from = push_read_steps(alloc, nodes, judging, target, Some(promoted(p)))?;
    let into = push_back(alloc, nodes, judging, target, p)?;
    Ok(ExprForm::Change {
        variable: target.variable,
        op: change.op,
        from,
        into,
        is_prefix: change.is_prefix,
    })
}

// Of a number.
#[tactic(auto, using(jc_typed::proofs::Growing::growing, jc_exprs_targets::proofs::Staying::targets_stay))]
fn changed_as(
    alloc: Global,
    table: &Table,
    walk: &mut Walk,
    change: Change,
    target: TargetAt,
    p: Primitive,
) -> Result<u32, WantOfMemory>
    requires { TargetBelow (length walk.old.nodes) (Some target) }
    ensures state { OnOk result ((ran (changed_as table.now walk.old.env.bounds change.place change.op change.is_prefix (target_of walk.old.nodes target) p) (now walk.old)).state ≡ now walk.new) }
    ensures value { IfOk result (λ at. (ran (changed_as table.now walk.old.env.bounds change.place change.op change.is_prefix (target_of walk.old.nodes target) p) (now walk.old)).has ≡ has walk.new.nodes at) }
    ensures within { IfOk result (λ at. at < length walk.new.nodes) }
    ensures grows { Grows walk.old.nodes walk.new.nodes }
{
    let judging = Judging {
        table,
        env: &walk.env,
    };
    let form = push_change(alloc, &mut walk.nodes, &judging, change, target, p)?;
    uncaptured(walk, change.place, target.ty, form)
}

fn changed_by(
    alloc: Global,
    table: &Table,
    walk: &mut Walk,
    change: Change,
    target: TargetAt,
    p: Option<Primitive>,
) -> Result<u32, WantOfMemory>
    requires { TargetBelow (length walk.old.nodes) (Some target) }
    ensures state { OnOk result ((ran (changed_by table.now walk.old.env.bounds change.place change.op change.is_prefix (target_of walk.old.nodes target) p) (now walk.old)).state ≡ now walk.new) }
    ensures value { IfOk result (λ at. (ran (changed_by table.now walk.old.env.bounds change.place change.op change.is_prefix (target_of walk.old.nodes target) p) (now walk.old)).has ≡ has walk.new.nodes at) }
    ensures within { IfOk result (λ at. at < length walk.new.nodes) }
    ensures grows { Grows walk.old.nodes walk.new.nodes }
{
    match p {
        None => broken(walk, 609, change.place),
        Some(p) => {
            if is_numeric(p) {
                changed_as(alloc, table, walk, change, target, p)
            } else {
                broken(walk, 609, change.place)
            }
        }
    }
}

/// `++` or `--` of a variable: 626 where it is a field that is named before its declaration, and 609 at the expression's first token where it is no number.
#[tactic(auto, unfolding(jc_exprs_nodes_spec::specs::Told::ran, jc_exprs_parts_spec::specs::Assigning::changed))]
pub fn changed(
    alloc: Global,
    table: &Table,
    walk: &mut Walk,
    change: Change,
    target: TargetAt,
) -> Result<u32, WantOfMemory>
    requires { TargetBelow (length walk.old.nodes) (Some target) }
    ensures state { OnOk result ((ran (changed table.now change.place change.op change.is_prefix (target_of walk.old.nodes target)) (now walk.old)).state ≡ now walk.new) }
    ensures value { IfOk result (λ at. (ran (changed table.now change.place change.op change.is_prefix (target_of walk.old.nodes target)) (now walk.old)).has ≡ has walk.new.nodes at) }
    ensures within { IfOk result (λ at. at < length walk.new.nodes) }
    ensures grows { Grows walk.old.nodes walk.new.nodes }
{
    if target.is_forward {
        return broken(walk, 626, target.place);
    }
    let p = exact_primitive(table, walk.nodes.ty(target.ty));
    changed_by(alloc, table, walk, change, target, p)
}
