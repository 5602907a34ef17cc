//! Assignments, whose parts are evaluated from left to right (JLS 15.26).
ghost use Rattle.std.specs.Prelude.{◌≡◌, if◌then◌else◌};
ghost use Rattle.jc_pending.specs.Frames.{Rest};
ghost use Rattle.jc_pending.specs.Leads.{Coherent, Leads};
ghost use Rattle.jc_pending.specs.Values.{change_value, target_task, target_to_value, value_to_target, values_to_target};
ghost use Rattle.jc_pending.specs.declared.expressions.ChangeTodo.TheVariants as h;

use crate::noting::note_read;
use jc_meaning::Target;
use jc_numbers::stepped;
use jc_pending::{
    ChangeTodo, ExpressionTask, Given, Next, NothingTask, NothingToValue, TargetTask,
    TargetToValue, Task, UseTodo, ValueToTarget, ValuesToTarget, change, expression, operand,
    operands, used, wait,
};
use jc_places::variable_node;
use jc_rules::Place;
use jc_running::Value;
use jc_typed::{Joint, Nodes, TypedProgram, VariableNode};
use jc_types::Op;
use jc_values::{Halt, Running, given};
use std::alloc::Global;

/// The parts of a variable, from left to right (JLS 15.26.1).
#[tactic(auto, using(jc_pending::proofs::Halting::of_target))]
pub fn target_task(
    program: &TypedProgram,
    nodes: &Nodes,
    depth: u64,
    task: TargetTask,
    run: &mut Running,
) -> Result<Next, Halt>
    ensures { (k : Rest) → Coherent k → Leads program.now nodes.now depth k result run.new (k.target (target_task program.now nodes.now depth task run.old.units run.old.state)) }
{
    let TargetTask::Variable { at } = task;
    match variable_node(nodes, at) {
        VariableNode::Local { local, .. } => Ok(Next::Give(Given::Target(Target::ToLocal(local)))),
        VariableNode::StaticField { before, field, .. } => Ok(Next::Then(
            wait!(ValuesToTarget, ValuesToTarget::Static { field }),
            operands!(before),
        )),
        VariableNode::Field { of, field, .. } => Ok(Next::Then(
            wait!(ValueToTarget, ValueToTarget::Field { field }),
            operand!(of),
        )),
        VariableNode::Element { array, index, .. } => Ok(Next::Then(
            wait!(ValueToTarget, ValueToTarget::Index { index }),
            operand!(array),
        )),
    }
}

/// What follows a part of a variable.
pub fn value_to_target(
    program: &TypedProgram,
    nodes: &Nodes,
    depth: u64,
    todo: ValueToTarget,
    v: Value,
    run: &mut Running,
) -> Result<Next, Halt>
    ensures { (k : Rest) → Coherent k → Leads program.now nodes.now depth k result run.new (k.target (value_to_target program.now nodes.now depth todo v run.old.units run.old.state)) }
{
    match todo {
        ValueToTarget::Field { field } => {
            Ok(Next::Give(Given::Target(Target::ToField(v, field))))
        }
        ValueToTarget::Index { index } => Ok(Next::Then(
            wait!(ValueToTarget, ValueToTarget::Element { array: v }),
            operand!(index),
        )),
        ValueToTarget::Element { array } => {
            Ok(Next::Give(Given::Target(Target::ToElement(array, v))))
        }
    }
}

pub fn values_to_target(
    program: &TypedProgram,
    nodes: &Nodes,
    depth: u64,
    todo: ValuesToTarget,
    values: &[Value],
    run: &mut Running,
) -> Result<Next, Halt>
    ensures { (k : Rest) → Coherent k → Leads program.now nodes.now depth k result run.new (k.target (values_to_target program.now nodes.now depth todo values.now run.old.units run.old.state)) }
{
    let ValuesToTarget::Static { field } = todo;
    Ok(Next::Give(Given::Target(Target::ToStatic(field))))
}

/// What is done with a variable whose parts are there (JLS 15.26, 15.14.2, 15.15.1).
pub fn target_to_value(
    program: &TypedProgram,
    nodes: &Nodes,
    depth: u64,
    todo: TargetToValue,
    target: Target,
    run: &mut Running,
) -> Result<Next, Halt>
    ensures { (k : Rest) → Coherent k → Leads program.now nodes.now depth k result run.new (k.value (target_to_value program.now nodes.now depth todo target run.old.units run.old.state)) }
{
    match todo {
        TargetToValue::Assign { value, store } => Ok(Next::Then(
            used!(UseTodo::Store { target, store }),
            operand!(value),
        )),
        TargetToValue::Compound {
            place,
            ty,
            joint,
            left,
            right,
            into,
        } => Ok(Next::Then(
            change!(ChangeTodo::CompoundNote {
                place,
                ty,
                joint,
                left,
                right,
                into,
                target
            }),
            expression!(ExpressionTask::Read { target }),
        )),
        TargetToValue::Step {
            place,
            ty,
            op,
            from,
            into,
            is_prefix,
        } => Ok(Next::Then(
            change!(ChangeTodo::StepNote {
                place,
                ty,
                op,
                from,
                into,
                is_prefix,
                target
            }),
            expression!(ExpressionTask::Read { target }),
        )),
    }
}

// The value of the variable of `v op= e` is noted, and converted.
#[tactic(auto, using(jc_pending::proofs::Halting::of_value))]
fn compound_note(
    alloc: Global,
    program: &TypedProgram,
    nodes: &Nodes,
    depth: u64,
    place: Place,
    ty: u32,
    joint: Joint,
    left: u32,
    right: u32,
    into: u32,
    target: Target,
    v: Value,
    run: &mut Running,
) -> Result<Next, Halt>
    ensures { (k : Rest) → Coherent k → Leads program.now nodes.now depth k result run.new (k.value (change_value program.now nodes.now depth (h.CompoundNote place ty joint left right into target) v run.old.units run.old.state)) }
{
    let value = note_read(alloc, program, nodes, place, ty, v, run)?;
    Ok(Next::Then(
        change!(ChangeTodo::CompoundJoin {
            joint,
            right,
            into,
            target
        }),
        expression!(ExpressionTask::Steps { steps: left, value }),
    ))
}

// .. and that of `++` and `--`
#[tactic(auto, using(jc_pending::proofs::Halting::of_value))]
fn step_note(
    alloc: Global,
    program: &TypedProgram,
    nodes: &Nodes,
    depth: u64,
    place: Place,
    ty: u32,
    op: Op,
    from: u32,
    into: u32,
    is_prefix: bool,
    target: Target,
    v: Value,
    run: &mut Running,
) -> Result<Next, Halt>
    ensures { (k : Rest) → Coherent k → Leads program.now nodes.now depth k result run.new (k.value (change_value program.now nodes.now depth (h.StepNote place ty op from into is_prefix target) v run.old.units run.old.state)) }
{
    let value = note_read(alloc, program, nodes, place, ty, v, run)?;
    Ok(Next::Then(
        change!(ChangeTodo::StepBy {
            op,
            into,
            is_prefix,
            target,
            before: v
        }),
        expression!(ExpressionTask::Steps { steps: from, value }),
    ))
}

// The value before the change, or behind it.
fn before_or_behind(is_prefix: bool, before: Value, behind: Value) -> Value
    ensures { result ≡ (if is_prefix then behind else before) }
{
    if is_prefix { behind } else { before }
}

/// What follows between the parts of `v op= e`, and of `++` and `--`.
#[tactic(auto, using(jc_pending::proofs::Halting::of_value))]
pub fn change_value(
    alloc: Global,
    program: &TypedProgram,
    nodes: &Nodes,
    depth: u64,
    todo: ChangeTodo,
    v: Value,
    run: &mut Running,
) -> Result<Next, Halt>
    ensures { (k : Rest) → Coherent k → Leads program.now nodes.now depth k result run.new (k.value (change_value program.now nodes.now depth todo v run.old.units run.old.state)) }
{
    match todo {
        ChangeTodo::CompoundNote {
            place,
            ty,
            joint,
            left,
            right,
            into,
            target,
        } => compound_note(
            alloc, program, nodes, depth, place, ty, joint, left, right, into, target, v, run,
        ),
        ChangeTodo::CompoundJoin {
            joint,
            right,
            into,
            target,
        } => Ok(Next::Then(
            change!(ChangeTodo::CompoundInto { into, target }),
            expression!(ExpressionTask::Joined {
                joint,
                left: v,
                right
            }),
        )),
        ChangeTodo::CompoundInto { into, target } => Ok(Next::Then(
            used!(UseTodo::Assign { target }),
            expression!(ExpressionTask::Steps {
                steps: into,
                value: v
            }),
        )),
        ChangeTodo::StepNote {
            place,
            ty,
            op,
            from,
            into,
            is_prefix,
            target,
        } => step_note(
            alloc, program, nodes, depth, place, ty, op, from, into, is_prefix, target, v, run,
        ),
        ChangeTodo::StepBy {
            op,
            into,
            is_prefix,
            target,
            before,
        } => {
            let value = given(alloc, program, run, stepped(op, v))?;
            Ok(Next::Then(
                change!(ChangeTodo::StepWrite {
                    is_prefix,
                    target,
                    before
                }),
                expression!(ExpressionTask::Steps { steps: into, value }),
            ))
        }
        ChangeTodo::StepWrite {
            is_prefix,
            target,
            before,
        } => Ok(Next::Then(
            wait!(
                NothingToValue,
                NothingToValue::Give {
                    value: before_or_behind(is_prefix, before, v)
                }
            ),
            Task::Nothing(NothingTask::Write { target, value: v }),
        )),
    }
}
