//! Writes to variables, fields and elements (JLS 15.26.1).
ghost use Rattle.jc_pending.specs.Frames.{Rest};
ghost use Rattle.jc_pending.specs.Leads.{Coherent, Leads};
ghost use Rattle.jc_pending.specs.Values.{nothing_task, nothing_to_nothing, value_to_nothing, values_to_nothing};
ghost use Rattle.jc_pending.specs.declared.expressions.NothingTask.TheVariants as n;

use crate::acting::{note_element, set_declared};
use crate::classes::class_task;
use jc_acts::capture;
use jc_layout::field_class;
use jc_meaning::Target;
use jc_pending::{
    ClassTask, ExpressionTask, Given, Next, NothingTask, NothingToNothing, Task, ValueToNothing,
    ValuesToNothing, class, expression, operands, wait,
};
use jc_places::declared_node;
use jc_rules::Place;
use jc_running::Value;
use jc_typed::{DeclaredNode, Nodes, TypedProgram};
use jc_values::{Halt, Running, put, set_element, set_field, set_local};
use std::alloc::Global;

// A value is stored in a variable (JLS 15.26.1).
#[tactic(auto, using(jc_pending::proofs::Halting::of_nothing))]
fn write_target(
    alloc: Global,
    program: &TypedProgram,
    nodes: &Nodes,
    depth: u64,
    target: Target,
    v: Value,
    run: &mut Running,
) -> Result<Next, Halt>
    ensures { (k : Rest) → Coherent k → Leads program.now nodes.now depth k result run.new (k.nothing (nothing_task program.now nodes.now depth (n.Write target v) run.old.units run.old.state)) }
{
    match target {
        Target::ToLocal(n) => {
            set_local(alloc, run, n as u64, v);
            Ok(Next::Give(Given::Nothing))
        }
        Target::ToStatic(field) => Ok(Next::Begin(Task::Nothing(NothingTask::SetStatic {
            field,
            value: v,
        }))),
        Target::ToField(of, field) => {
            set_field(alloc, program, run, field, of, v)?;
            Ok(Next::Give(Given::Nothing))
        }
        Target::ToElement(array, index) => {
            set_element(alloc, program, run, array, index, v)?;
            Ok(Next::Give(Given::Nothing))
        }
    }
}

// Declared variables get the values of their initialisers (JLS 14.4.4).
fn declare(
    program: &TypedProgram,
    nodes: &Nodes,
    depth: u64,
    declared: u32,
    run: &mut Running,
) -> Result<Next, Halt>
    ensures { (k : Rest) → Coherent k → Leads program.now nodes.now depth k result run.new (k.nothing (nothing_task program.now nodes.now depth (n.Declare declared) run.old.units run.old.state)) }
{
    match declared_node(nodes, declared) {
        DeclaredNode::Empty => Ok(Next::Give(Given::Nothing)),
        DeclaredNode::More {
            before,
            local,
            value,
            ..
        } => Ok(Next::Then(
            wait!(
                NothingToNothing,
                NothingToNothing::DeclareLast { local, value }
            ),
            Task::Nothing(NothingTask::Declare { declared: before }),
        )),
    }
}

// An element goes into the variable of an enhanced `for`: it is captured, noted, and converted (JLS 14.14.2).
#[tactic(auto, using(jc_pending::proofs::Halting::of_nothing, jc_pending::proofs::Idles::idles))]
fn take_element(
    alloc: Global,
    program: &TypedProgram,
    nodes: &Nodes,
    depth: u64,
    place: Place,
    ty: u32,
    captures: u32,
    steps: u32,
    local: u32,
    v: Value,
    run: &mut Running,
) -> Result<Next, Halt>
    ensures { (k : Rest) → Coherent k → Leads program.now nodes.now depth k result run.new (k.nothing (nothing_task program.now nodes.now depth (n.Take place ty captures steps local v) run.old.units run.old.state)) }
{
    capture(alloc, program, nodes, captures, v, run)?;
    let value = note_element(alloc, program, nodes, place, ty, v, run)?;
    Ok(Next::Then(
        wait!(ValueToNothing, ValueToNothing::SetLocal { local }),
        expression!(ExpressionTask::Steps { steps, value }),
    ))
}

/// What a computation that gives nothing begins with.
pub fn nothing_task(
    alloc: Global,
    program: &TypedProgram,
    nodes: &Nodes,
    depth: u64,
    task: NothingTask,
    run: &mut Running,
) -> Result<Next, Halt>
    ensures { (k : Rest) → Coherent k → Leads program.now nodes.now depth k result run.new (k.nothing (nothing_task program.now nodes.now depth task run.old.units run.old.state)) }
{
    match task {
        NothingTask::Write { target, value } => {
            write_target(alloc, program, nodes, depth, target, value, run)
        }
        NothingTask::Store {
            target,
            store,
            value,
        } => Ok(Next::Then(
            wait!(ValueToNothing, ValueToNothing::Write { target }),
            expression!(ExpressionTask::Steps {
                steps: store,
                value
            }),
        )),
        NothingTask::SetStatic { field, value } => Ok(Next::Then(
            wait!(
                NothingToNothing,
                NothingToNothing::PutStatic { field, value }
            ),
            class!(ClassTask::Ready {
                class: field_class(&program.table, field)
            }),
        )),
        NothingTask::Declare { declared } => declare(program, nodes, depth, declared, run),
        NothingTask::Take {
            place,
            ty,
            captures,
            steps,
            local,
            value,
        } => take_element(
            alloc, program, nodes, depth, place, ty, captures, steps, local, value, run,
        ),
        NothingTask::Update { update } => Ok(Next::Then(
            wait!(ValuesToNothing, ValuesToNothing::Drop),
            operands!(update),
        )),
        NothingTask::Class(of) => class_task(alloc, program, nodes, depth, of, run),
    }
}

pub fn nothing_to_nothing(
    alloc: Global,
    program: &TypedProgram,
    nodes: &Nodes,
    depth: u64,
    todo: NothingToNothing,
    run: &mut Running,
) -> Result<Next, Halt>
    ensures { (k : Rest) → Coherent k → Leads program.now nodes.now depth k result run.new (k.nothing (nothing_to_nothing program.now nodes.now depth todo run.old.units run.old.state)) }
{
    match todo {
        NothingToNothing::PutStatic { field, value } => {
            put(alloc, &mut run.state.statics, field.0 as usize, value);
            Ok(Next::Give(Given::Nothing))
        }
        NothingToNothing::DeclareLast { local, value } => Ok(Next::Then(
            wait!(ValuesToNothing, ValuesToNothing::SetFirst { local }),
            operands!(value),
        )),
    }
}

pub fn value_to_nothing(
    alloc: Global,
    program: &TypedProgram,
    nodes: &Nodes,
    depth: u64,
    todo: ValueToNothing,
    v: Value,
    run: &mut Running,
) -> Result<Next, Halt>
    ensures { (k : Rest) → Coherent k → Leads program.now nodes.now depth k result run.new (k.nothing (value_to_nothing program.now nodes.now depth todo v run.old.units run.old.state)) }
{
    match todo {
        ValueToNothing::Drop => Ok(Next::Give(Given::Nothing)),
        ValueToNothing::SetLocal { local } => {
            set_local(alloc, run, local as u64, v);
            Ok(Next::Give(Given::Nothing))
        }
        ValueToNothing::Write { target } => {
            Ok(Next::Begin(Task::Nothing(NothingTask::Write { target, value: v })))
        }
    }
}

pub fn values_to_nothing(
    alloc: Global,
    program: &TypedProgram,
    nodes: &Nodes,
    depth: u64,
    todo: ValuesToNothing,
    values: &[Value],
    run: &mut Running,
) -> Result<Next, Halt>
    ensures { (k : Rest) → Coherent k → Leads program.now nodes.now depth k result run.new (k.nothing (values_to_nothing program.now nodes.now depth todo values.now run.old.units run.old.state)) }
{
    match todo {
        ValuesToNothing::Drop => Ok(Next::Give(Given::Nothing)),
        ValuesToNothing::SetFirst { local } => {
            set_declared(alloc, program, local, values, run);
            Ok(Next::Give(Given::Nothing))
        }
    }
}
