//! What a computation begins with, by what it gives.
ghost use Rattle.jc_pending.specs.Frames.{Rest, begun};
ghost use Rattle.jc_pending.specs.Leads.{Coherent, Leads};
ghost use Rattle.jc_pending.specs.Values.{value_task};
ghost use Rattle.jc_running.specs.Outcomes.{Val};

use jc_calling::{call_task, nothing_task};
use jc_completing::{completion_task, numbered_task, turn_task};
use jc_expressing::{all_true, any_true, expression_task, fill_with, target_task, values_task};
use jc_pending::{Next, Task, ValueTask};
use jc_typed::{Nodes, TypedProgram};
use jc_values::{Halt, Running};
use std::alloc::Global;

fn value_task(
    alloc: Global,
    program: &TypedProgram,
    nodes: &Nodes,
    depth: u64,
    task: ValueTask,
    run: &mut Running,
) -> Result<Next, Halt>
    ensures { (k : Rest) → Coherent k → Leads program.now nodes.now depth k result run.new (k.value (value_task program.now nodes.now depth task run.old.units run.old.state)) }
{
    match task {
        ValueTask::Expression(task) => expression_task(alloc, program, nodes, depth, task, run),
        ValueTask::Call(task) => call_task(alloc, program, nodes, depth, task, run),
        ValueTask::AllTrue { operands } => all_true(program, nodes, depth, operands, run),
        ValueTask::AnyTrue { operands } => any_true(program, nodes, depth, operands, run),
        ValueTask::FillWith {
            array,
            at,
            elements,
        } => fill_with(program, nodes, depth, array, at, elements, run),
    }
}

/// The first step of a computation.
pub fn start(
    alloc: Global,
    program: &TypedProgram,
    nodes: &Nodes,
    depth: u64,
    task: Task,
    run: &mut Running,
) -> Result<Next, Halt>
    ensures { (k : Rest) → Coherent k → Leads program.now nodes.now depth k result run.new (begun program.now nodes.now depth task k (Val tt run.old.units run.old.state)) }
{
    match task {
        Task::Value(task) => value_task(alloc, program, nodes, depth, task, run),
        Task::Values(task) => values_task(alloc, program, nodes, depth, task, run),
        Task::Nothing(task) => nothing_task(alloc, program, nodes, depth, task, run),
        Task::Target(task) => target_task(program, nodes, depth, task, run),
        Task::Completion(task) => completion_task(alloc, program, nodes, depth, task, run),
        Task::Turn(task) => turn_task(alloc, program, nodes, depth, task, run),
        Task::Numbered(task) => numbered_task(alloc, program, nodes, depth, task, run),
    }
}
