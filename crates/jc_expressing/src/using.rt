//! What is done with a value that is there.
ghost use Rattle.jc_pending.specs.Frames.{Rest};
ghost use Rattle.jc_pending.specs.Leads.{Coherent, Leads};
ghost use Rattle.jc_pending.specs.Values.{use_value};
ghost use Rattle.jc_pending.specs.declared.expressions.UseTodo.TheVariants as u;
ghost use Rattle.jc_typed.specs.declared.lists.StepNode.TheVariants as step;

use crate::noting::{is_instance, note_form};
use jc_acts::{box_of, capture, forget, one_value, prefixes};
use jc_numbers::{boolean_of, converted};
use jc_pending::{
    CallTask, ClassTask, ExpressionTask, Given, Next, NothingTask, NothingToValue, Task, UseTodo,
    call, class, expression, operand, used, wait,
};
use jc_rules::{Items, Place};
use jc_running::Value;
use jc_typed::{BoxedIn, ExprForm, Nodes, StepNode, TypedProgram};
use jc_types::Primitive;
use jc_values::{Halt, Running, checked, get_element, get_field, length_of};
use std::alloc::Global;

/// What is done with the value of an operand or of an expression.
#[tactic(auto, using(jc_pending::proofs::Halting::of_value, jc_pending::proofs::Idles::idles))]
pub fn use_value(
    alloc: Global,
    program: &TypedProgram,
    nodes: &Nodes,
    depth: u64,
    todo: UseTodo,
    v: Value,
    run: &mut Running,
) -> Result<Next, Halt>
    ensures { (k : Rest) → Coherent k → Leads program.now nodes.now depth k result run.new (k.value (use_value program.now nodes.now depth todo v run.old.units run.old.state)) }
{
    match todo {
        UseTodo::Noted {
            place,
            ty,
            captures,
            form,
        } => note_value(
            alloc, program, nodes, depth, place, ty, captures, form, v, run,
        ),
        UseTodo::Step { step } => step_value(alloc, program, nodes, depth, step, v, run),
        UseTodo::Steps { steps } => Ok(Next::Begin(expression!(ExpressionTask::Steps {
            steps,
            value: v
        }))),
        UseTodo::Field { field } => Ok(Next::Give(Given::Value(get_field(
            alloc, program, run, field, v,
        )?))),
        UseTodo::Index { index } => Ok(Next::Then(
            used!(UseTodo::Element { array: v }),
            operand!(index),
        )),
        UseTodo::Element { array } => Ok(Next::Give(Given::Value(get_element(
            alloc, program, run, array, v,
        )?))),
        UseTodo::Length => Ok(Next::Give(Given::Value(length_of(alloc, program, run, v)?))),
        UseTodo::Prefix { ops } => prefix_value(alloc, program, nodes, depth, ops, v, run),
        UseTodo::InstanceOf { to } => Ok(Next::Give(Given::Value(is_instance(
            alloc, program, run, to, v,
        )?))),
        UseTodo::Branches {
            then,
            other,
            from,
            up_to,
        } => branch(
            alloc, program, nodes, depth, then, other, from, up_to, v, run,
        ),
        UseTodo::Assign { target } => Ok(Next::Then(
            wait!(NothingToValue, NothingToValue::Give { value: v }),
            Task::Nothing(NothingTask::Write { target, value: v }),
        )),
        UseTodo::Store { target, store } => Ok(Next::Then(
            wait!(NothingToValue, NothingToValue::Give { value: v }),
            Task::Nothing(NothingTask::Store {
                target,
                store,
                value: v,
            }),
        )),
        UseTodo::Instead { value } => Ok(Next::Give(Given::Value(value))),
    }
}

// The variables of the expression's capture stand for what its value says, and the value is noted.
#[tactic(auto, using(jc_pending::proofs::Halting::of_value, jc_pending::proofs::Idles::idles))]
fn note_value(
    alloc: Global,
    program: &TypedProgram,
    nodes: &Nodes,
    depth: u64,
    place: Place,
    ty: u32,
    captures: u32,
    form: ExprForm,
    v: Value,
    run: &mut Running,
) -> Result<Next, Halt>
    ensures { (k : Rest) → Coherent k → Leads program.now nodes.now depth k result run.new (k.value (use_value program.now nodes.now depth (u.Noted place ty captures form) v run.old.units run.old.state)) }
{
    capture(alloc, program, nodes, captures, v, run)?;
    let w = note_form(alloc, program, nodes, place, ty, form, v, run)?;
    Ok(Next::Give(Given::Value(w)))
}

// Prefix operators, the innermost first (JLS 15.15).
#[tactic(auto, using(jc_pending::proofs::Halting::of_value, jc_pending::proofs::Idles::idles))]
fn prefix_value(
    alloc: Global,
    program: &TypedProgram,
    nodes: &Nodes,
    depth: u64,
    ops: u32,
    v: Value,
    run: &mut Running,
) -> Result<Next, Halt>
    ensures { (k : Rest) → Coherent k → Leads program.now nodes.now depth k result run.new (k.value (use_value program.now nodes.now depth (u.Prefix ops) v run.old.units run.old.state)) }
{
    let w = prefixes(alloc, program, nodes, ops, v, run)?;
    Ok(Next::Give(Given::Value(w)))
}

// `test ? then : other` behind the test (JLS 15.25).
#[tactic(auto, using(jc_pending::proofs::Halting::of_value, jc_pending::proofs::Idles::idles))]
fn branch(
    alloc: Global,
    program: &TypedProgram,
    nodes: &Nodes,
    depth: u64,
    then: u32,
    other: u32,
    from: u64,
    up_to: u64,
    v: Value,
    run: &mut Running,
) -> Result<Next, Halt>
    ensures { (k : Rest) → Coherent k → Leads program.now nodes.now depth k result run.new (k.value (use_value program.now nodes.now depth (u.Branches then other from up_to) v run.old.units run.old.state)) }
{
    forget(alloc, program, from, up_to.saturating_sub(from), run)?;
    match boolean_of(v) {
        None => Err(Halt::Wrong),
        Some(true) => Ok(Next::Begin(operand!(then))),
        Some(false) => Ok(Next::Begin(operand!(other))),
    }
}

// Boxing calls `valueOf`, which the class has to be initialised for (JLS 5.1.7).
fn box_value(
    alloc: Global,
    program: &TypedProgram,
    nodes: &Nodes,
    depth: u64,
    of: Primitive,
    v: Value,
    run: &mut Running,
) -> Result<Next, Halt>
    ensures { (k : Rest) → Coherent k → Leads program.now nodes.now depth k result run.new (k.value (use_value program.now nodes.now depth (u.Step (step.BoxUp of)) v run.old.units run.old.state)) }
{
    let box_class: BoxedIn = box_of(&program.known.boxes, of);
    let args = one_value(alloc, v)?;
    Ok(Next::Then(
        wait!(
            NothingToValue,
            NothingToValue::Call {
                method: box_class.make,
                args,
                types: Items::new(alloc)
            }
        ),
        class!(ClassTask::Ready {
            class: box_class.class
        }),
    ))
}

// A step of a conversion or a cast (JLS 5.1, 5.5).
#[tactic(auto, using(jc_pending::proofs::Halting::of_value))]
fn step_value(
    alloc: Global,
    program: &TypedProgram,
    nodes: &Nodes,
    depth: u64,
    step: StepNode,
    v: Value,
    run: &mut Running,
) -> Result<Next, Halt>
    ensures { (k : Rest) → Coherent k → Leads program.now nodes.now depth k result run.new (k.value (use_value program.now nodes.now depth (u.Step step) v run.old.units run.old.state)) }
{
    match step {
        StepNode::Widen(to) => match converted(to, v) {
            Some(w) => Ok(Next::Give(Given::Value(w))),
            None => Err(Halt::Wrong),
        },
        StepNode::Narrow(to) => match converted(to, v) {
            Some(w) => Ok(Next::Give(Given::Value(w))),
            None => Err(Halt::Wrong),
        },
        StepNode::BoxUp(of) => box_value(alloc, program, nodes, depth, of, v, run),
        StepNode::Unbox(to) => Ok(Next::Begin(call!(CallTask::Direct {
            method: box_of(&program.known.boxes, to).value,
            receiver: v,
            args: Items::new(alloc),
            types: Items::new(alloc),
        }))),
        StepNode::Up { .. } => Ok(Next::Give(Given::Value(v))),
        StepNode::Test { check, to } => Ok(Next::Give(Given::Value(checked(
            alloc, program, run, check, to, v,
        )?))),
    }
}
