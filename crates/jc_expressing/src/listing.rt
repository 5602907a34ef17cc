//! The values of operands, from left to right (JLS 15.7).
ghost use Rattle.std.specs.Prelude.{◌≡◌, IfOk};
ghost use Rattle.jc_typed.specs.Parts.{operands_of};
ghost use Rattle.jc_meaning.specs.Programs.{operand_list};
ghost use Rattle.jc_pending.specs.Frames.{Rest};
ghost use Rattle.jc_pending.specs.Leads.{Coherent, Leads};
ghost use Rattle.jc_pending.specs.Level.{operands_back};
ghost use Rattle.jc_pending.specs.Values.{list_value, value_task, value_to_values, values_task, values_to_values};
ghost use Rattle.jc_pending.specs.declared.expressions.ValueTask.TheVariants as v;
ghost use Rattle.jc_pending.specs.declared.expressions.ListTodo.TheVariants as i;
ghost use Rattle.jc_pending.specs.declared.expressions.ValuesTask.TheVariants as vs;

use jc_numbers::{boolean_of, truth};
use jc_pending::{
    Given, ListTodo, Next, Task, ValueTask, ValueToValue, ValueToValues, ValuesTask,
    ValuesToValues, operand, operands, wait,
};
use jc_places::operands_node;
use jc_rules::{Items, WantOfMemory};
use jc_running::Value;
use jc_typed::{ListNode, Nodes, TypedProgram};
use jc_values::{Halt, Running, set_element};
use std::alloc::Global;

/// The places of the operands of a list, the last first.
#[tactic(auto, using(jc_places::proofs::Turned::turned))]
pub fn operands_back(alloc: Global, nodes: &Nodes, at: u32) -> Result<Items<u32>, WantOfMemory>
    ensures { IfOk result (λ r. operand_list (operands_of nodes.now at) ≡ operands_back nodes.now r) }
{
    let mut out = Items::new(alloc);
    let mut list = at;
    while let ListNode::More { before, last } = operands_node(nodes, list) {
        out.push(last)?;
        list = before;
    }
    Ok(out)
}

// The values of operands, from left to right (JLS 15.7.1, 15.12.4.2): those before the last one, and then that.
fn values_of(
    alloc: Global,
    program: &TypedProgram,
    nodes: &Nodes,
    depth: u64,
    at: u32,
    run: &mut Running,
) -> Result<Next, Halt>
    ensures { (k : Rest) → Coherent k → Leads program.now nodes.now depth k result run.new (k.values (values_task program.now nodes.now depth (vs.Operands at) run.old.units run.old.state)) }
{
    match operands_node(nodes, at) {
        ListNode::Empty => Ok(Next::Give(Given::Values(Items::new(alloc)))),
        ListNode::More { before, last } => Ok(Next::Then(
            wait!(ValuesToValues, ValuesToValues::Last { last }),
            operands!(before),
        )),
    }
}

/// What the values of operands begin with.
pub fn values_task(
    alloc: Global,
    program: &TypedProgram,
    nodes: &Nodes,
    depth: u64,
    task: ValuesTask,
    run: &mut Running,
) -> Result<Next, Halt>
    ensures { (k : Rest) → Coherent k → Leads program.now nodes.now depth k result run.new (k.values (values_task program.now nodes.now depth task run.old.units run.old.state)) }
{
    match task {
        ValuesTask::Operands { at } => values_of(alloc, program, nodes, depth, at, run),
    }
}

/// What follows the values of all operands but for the last.
pub fn values_to_values(
    program: &TypedProgram,
    nodes: &Nodes,
    depth: u64,
    todo: ValuesToValues,
    values: Items<Value>,
    run: &mut Running,
) -> Result<Next, Halt>
    ensures { (k : Rest) → Coherent k → Leads program.now nodes.now depth k result run.new (k.values (values_to_values program.now nodes.now depth todo values run.old.units run.old.state)) }
{
    let ValuesToValues::Last { last } = todo;
    Ok(Next::Then(
        wait!(ValueToValues, ValueToValues::Append { values }),
        operand!(last),
    ))
}

/// The value of the last operand stands behind the others.
#[tactic(auto, using(jc_pending::proofs::Halting::of_values))]
pub fn value_to_values(
    program: &TypedProgram,
    nodes: &Nodes,
    depth: u64,
    todo: ValueToValues,
    v: Value,
    run: &mut Running,
) -> Result<Next, Halt>
    ensures { (k : Rest) → Coherent k → Leads program.now nodes.now depth k result run.new (k.values (value_to_values program.now nodes.now depth todo v run.old.units run.old.state)) }
{
    let ValueToValues::Append { mut values } = todo;
    values.push(v)?;
    Ok(Next::Give(Given::Values(values)))
}

/// `&&` over operands that stand in reverse order (JLS 15.23).
#[tactic(auto, using(jc_places::proofs::Turned::turned))]
pub fn all_true(
    program: &TypedProgram,
    nodes: &Nodes,
    depth: u64,
    operands: Items<u32>,
    run: &mut Running,
) -> Result<Next, Halt>
    ensures { (k : Rest) → Coherent k → Leads program.now nodes.now depth k result run.new (k.value (value_task program.now nodes.now depth (v.AllTrue operands) run.old.units run.old.state)) }
{
    let mut operands = operands;
    match operands.pop() {
        None => Ok(Next::Give(Given::Value(truth(true)))),
        Some(at) => Ok(Next::Then(
            wait!(
                ValueToValue,
                ValueToValue::List(ListTodo::AllTrue { operands })
            ),
            operand!(at),
        )),
    }
}

/// `||` over operands that stand in reverse order (JLS 15.24).
#[tactic(auto, using(jc_places::proofs::Turned::turned))]
pub fn any_true(
    program: &TypedProgram,
    nodes: &Nodes,
    depth: u64,
    operands: Items<u32>,
    run: &mut Running,
) -> Result<Next, Halt>
    ensures { (k : Rest) → Coherent k → Leads program.now nodes.now depth k result run.new (k.value (value_task program.now nodes.now depth (v.AnyTrue operands) run.old.units run.old.state)) }
{
    let mut operands = operands;
    match operands.pop() {
        None => Ok(Next::Give(Given::Value(truth(false)))),
        Some(at) => Ok(Next::Then(
            wait!(
                ValueToValue,
                ValueToValue::List(ListTodo::AnyTrue { operands })
            ),
            operand!(at),
        )),
    }
}

/// The elements that an array is still to get, which stand in reverse order (JLS 10.6).
#[tactic(auto, using(jc_places::proofs::Turned::turned))]
pub fn fill_with(
    program: &TypedProgram,
    nodes: &Nodes,
    depth: u64,
    array: u64,
    at: u32,
    elements: Items<u32>,
    run: &mut Running,
) -> Result<Next, Halt>
    ensures { (k : Rest) → Coherent k → Leads program.now nodes.now depth k result run.new (k.value (value_task program.now nodes.now depth (v.FillWith array at elements) run.old.units run.old.state)) }
{
    let mut elements = elements;
    match elements.pop() {
        None => Ok(Next::Give(Given::Value(Value::Address(array)))),
        Some(of) => Ok(Next::Then(
            wait!(
                ValueToValue,
                ValueToValue::List(ListTodo::FillWith {
                    array,
                    at,
                    elements
                })
            ),
            operand!(of),
        )),
    }
}

// An element is stored before the next one is evaluated.
#[tactic(auto, using(jc_pending::proofs::Halting::of_value))]
fn store_element(
    alloc: Global,
    program: &TypedProgram,
    nodes: &Nodes,
    depth: u64,
    array: u64,
    at: u32,
    elements: Items<u32>,
    v: Value,
    run: &mut Running,
) -> Result<Next, Halt>
    ensures { (k : Rest) → Coherent k → Leads program.now nodes.now depth k result run.new (k.value (list_value program.now nodes.now depth (i.FillWith array at elements) v run.old.units run.old.state)) }
{
    if at > 2147483646 {
        return Err(Halt::WantOfMemory);
    }
    set_element(
        alloc,
        program,
        run,
        Value::Address(array),
        Value::Whole(at as i32),
        v,
    )?;
    Ok(Next::Begin(Task::Value(ValueTask::FillWith {
        array,
        at: at + 1,
        elements,
    })))
}

/// What follows an operand of a list.
#[tactic(auto, using(jc_pending::proofs::Halting::of_value))]
pub fn list_value(
    alloc: Global,
    program: &TypedProgram,
    nodes: &Nodes,
    depth: u64,
    todo: ListTodo,
    v: Value,
    run: &mut Running,
) -> Result<Next, Halt>
    ensures { (k : Rest) → Coherent k → Leads program.now nodes.now depth k result run.new (k.value (list_value program.now nodes.now depth todo v run.old.units run.old.state)) }
{
    match todo {
        ListTodo::AllTrue { operands } => match boolean_of(v) {
            None => Err(Halt::Wrong),
            Some(true) => Ok(Next::Begin(Task::Value(ValueTask::AllTrue { operands }))),
            Some(false) => Ok(Next::Give(Given::Value(truth(false)))),
        },
        ListTodo::AnyTrue { operands } => match boolean_of(v) {
            None => Err(Halt::Wrong),
            Some(true) => Ok(Next::Give(Given::Value(truth(true)))),
            Some(false) => Ok(Next::Begin(Task::Value(ValueTask::AnyTrue { operands }))),
        },
        ListTodo::FillWith {
            array,
            at,
            elements,
        } => store_element(alloc, program, nodes, depth, array, at, elements, v, run),
    }
}
