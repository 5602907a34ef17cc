//! What follows where a point has what it waits for, by what the point takes and gives.
ghost use Rattle.jc_pending.specs.Frames.{Rest, behind_completion, behind_nothing, behind_value, behind_values};
ghost use Rattle.jc_pending.specs.Leads.{Coherent, Leads};
ghost use Rattle.jc_pending.specs.Values.{value_to_value};
ghost use Rattle.jc_running.specs.Outcomes.{Val};

use jc_calling::{
    answered_value, completion_to_value, nothing_to_nothing, nothing_to_value, value_to_nothing,
    values_to_nothing, values_to_value,
};
use jc_completing::{
    completion_to_completion, completion_to_numbered, completion_to_turn, nothing_to_completion,
    nothing_to_numbered, nothing_to_turn, value_to_completion, value_to_turn, values_to_completion,
};
use jc_expressing::{
    change_value, join_value, list_value, use_value, value_to_target, value_to_values,
    values_to_target, values_to_values,
};
use jc_pending::{ForCompletion, ForNothing, ForValue, ForValues, Next, ValueToValue};
use jc_rules::Items;
use jc_running::{Completion, Value};
use jc_typed::{Nodes, TypedProgram};
use jc_values::{Halt, Running};
use std::alloc::Global;

// An expression that has a value goes on.
fn value_to_value(
    alloc: Global,
    program: &TypedProgram,
    nodes: &Nodes,
    depth: u64,
    todo: ValueToValue,
    v: Value,
    run: &mut Running,
) -> Result<Next, Halt>
    ensures { (k : Rest) → Coherent k → Leads program.now nodes.now depth k result run.new (k.value (value_to_value program.now nodes.now depth todo v run.old.units run.old.state)) }
{
    match todo {
        ValueToValue::Use(todo) => use_value(alloc, program, nodes, depth, todo, v, run),
        ValueToValue::Join(todo) => join_value(alloc, program, nodes, depth, todo, v, run),
        ValueToValue::Change(todo) => change_value(alloc, program, nodes, depth, todo, v, run),
        ValueToValue::List(todo) => list_value(alloc, program, nodes, depth, todo, v, run),
        ValueToValue::Answered { method, own } => answered_value(
            alloc, program, nodes, depth, method, own, v, run,
        ),
    }
}

/// Behind a value.
pub fn behind_value(
    alloc: Global,
    program: &TypedProgram,
    nodes: &Nodes,
    depth: u64,
    todo: ForValue,
    v: Value,
    run: &mut Running,
) -> Result<Next, Halt>
    ensures { (k : Rest) → Coherent k → Leads program.now nodes.now depth k result run.new (behind_value program.now nodes.now depth todo k (Val v run.old.units run.old.state)) }
{
    match todo {
        ForValue::ToValue(todo) => value_to_value(alloc, program, nodes, depth, todo, v, run),
        ForValue::ToValues(todo) => value_to_values(program, nodes, depth, todo, v, run),
        ForValue::ToNothing(todo) => value_to_nothing(alloc, program, nodes, depth, todo, v, run),
        ForValue::ToTarget(todo) => value_to_target(program, nodes, depth, todo, v, run),
        ForValue::ToCompletion(todo) => value_to_completion(
            alloc, program, nodes, depth, todo, v, run,
        ),
        ForValue::ToTurn(todo) => value_to_turn(alloc, program, nodes, depth, todo, v, run),
    }
}

/// Behind the values of operands.
pub fn behind_values(
    alloc: Global,
    program: &TypedProgram,
    nodes: &Nodes,
    depth: u64,
    todo: ForValues,
    values: Items<Value>,
    run: &mut Running,
) -> Result<Next, Halt>
    ensures { (k : Rest) → Coherent k → Leads program.now nodes.now depth k result run.new (behind_values program.now nodes.now depth todo k (Val values run.old.units run.old.state)) }
{
    match todo {
        ForValues::ToValue(todo) => values_to_value(
            alloc, program, nodes, depth, todo, values, run,
        ),
        ForValues::ToValues(todo) => values_to_values(program, nodes, depth, todo, values, run),
        ForValues::ToNothing(todo) => values_to_nothing(
            alloc,
            program,
            nodes,
            depth,
            todo,
            values.slice(),
            run,
        ),
        ForValues::ToTarget(todo) => values_to_target(
            program,
            nodes,
            depth,
            todo,
            values.slice(),
            run,
        ),
        ForValues::ToCompletion(todo) => values_to_completion(
            alloc, program, nodes, depth, todo, values, run,
        ),
    }
}

/// Behind what gives nothing.
pub fn behind_nothing(
    alloc: Global,
    program: &TypedProgram,
    nodes: &Nodes,
    depth: u64,
    todo: ForNothing,
    run: &mut Running,
) -> Result<Next, Halt>
    ensures { (k : Rest) → Coherent k → Leads program.now nodes.now depth k result run.new (behind_nothing program.now nodes.now depth todo k (Val tt run.old.units run.old.state)) }
{
    match todo {
        ForNothing::ToValue(todo) => nothing_to_value(alloc, program, nodes, depth, todo, run),
        ForNothing::ToNothing(todo) => nothing_to_nothing(alloc, program, nodes, depth, todo, run),
        ForNothing::ToCompletion(todo) => nothing_to_completion(program, nodes, depth, todo, run),
        ForNothing::ToTurn(todo) => nothing_to_turn(program, nodes, depth, todo, run),
        ForNothing::ToNumbered(todo) => nothing_to_numbered(program, nodes, depth, todo, run),
    }
}

/// Behind a completion.
pub fn behind_completion(
    alloc: Global,
    program: &TypedProgram,
    nodes: &Nodes,
    depth: u64,
    todo: ForCompletion,
    c: Completion,
    run: &mut Running,
) -> Result<Next, Halt>
    ensures { (k : Rest) → Coherent k → Leads program.now nodes.now depth k result run.new (behind_completion program.now nodes.now depth todo k (Val c run.old.units run.old.state)) }
{
    match todo {
        ForCompletion::ToValue(todo) => completion_to_value(program, nodes, depth, todo, c, run),
        ForCompletion::ToCompletion(todo) => completion_to_completion(
            program, nodes, depth, todo, c, run,
        ),
        ForCompletion::ToTurn(todo) => completion_to_turn(program, nodes, depth, todo, c, run),
        ForCompletion::ToNumbered(todo) => completion_to_numbered(
            program, nodes, depth, todo, c, run,
        ),
    }
}
