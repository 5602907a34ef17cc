//! What follows where something is left to do: behind what was given, behind a thrown object, and past what ended a run.
ghost use Rattle.std.specs.Prelude.{◌≡◌, Err};
ghost use Rattle.jc_meaning.specs.Kept.{TypedState};
ghost use Rattle.jc_pending.specs.Frames.{Rest, left_to_do, waits};
ghost use Rattle.jc_pending.specs.Leads.{Coherent, GivenLeads, HaltLeads, Leads, given_on};
ghost use Rattle.jc_running.specs.Outcomes.{Out, Thrown};
ghost use Rattle.jc_running.specs.declared.value.Value.{Value};

use crate::giving::{
    completion_in, nothing_in, numbered_in, target_in, turn_in, value_in, values_in,
};
use crate::leaving::{back_value, leave_completion, leave_nothing, leave_value};
use crate::points::{behind_completion, behind_nothing, behind_value, behind_values};
use crate::starting::start;
use jc_calling::{initialised, initialiser_threw, superclass_ready, superclass_threw};
use jc_completing::{
    caught, finally_behind, finally_thrown, numbered_to_completion, thrown_into, turn_to_completion,
};
use jc_expressing::target_to_value;
use jc_pending::{Given, Next, Todo, Waiting};
use jc_typed::{Nodes, TypedProgram};
use jc_values::{Halt, Running};
use std::alloc::Global;

// A point that waits takes what was given.
fn wait_on(
    alloc: Global,
    program: &TypedProgram,
    nodes: &Nodes,
    depth: u64,
    waiting: Waiting,
    given: Given,
    run: &mut Running,
) -> Result<Next, Halt>
    ensures { (k : Rest) → Coherent k → Leads program.now nodes.now depth k result run.new (given_on (waits program.now nodes.now depth waiting k) given run.old) }
{
    match waiting {
        Waiting::Value(todo) => match value_in(given) {
            None => Err(Halt::Wrong),
            Some(v) => behind_value(alloc, program, nodes, depth, todo, v, run),
        },
        Waiting::Values(todo) => match values_in(given) {
            None => Err(Halt::Wrong),
            Some(values) => behind_values(alloc, program, nodes, depth, todo, values, run),
        },
        Waiting::Nothing(todo) => match nothing_in(given) {
            None => Err(Halt::Wrong),
            Some(()) => behind_nothing(alloc, program, nodes, depth, todo, run),
        },
        Waiting::Target(todo) => match target_in(given) {
            None => Err(Halt::Wrong),
            Some(target) => target_to_value(program, nodes, depth, todo, target, run),
        },
        Waiting::Completion(todo) => match completion_in(given) {
            None => Err(Halt::Wrong),
            Some(c) => behind_completion(alloc, program, nodes, depth, todo, c, run),
        },
        Waiting::Turn(todo) => match turn_in(given) {
            None => Err(Halt::Wrong),
            Some(ended) => turn_to_completion(program, nodes, depth, todo, ended, run),
        },
        Waiting::Numbered(todo) => match numbered_in(given) {
            None => Err(Halt::Wrong),
            Some(ended) => numbered_to_completion(program, nodes, depth, todo, ended, run),
        },
    }
}

// What is left to do takes what was given.
fn take(
    alloc: Global,
    program: &TypedProgram,
    nodes: &Nodes,
    depth: u64,
    todo: Todo,
    given: Given,
    run: &mut Running,
) -> Result<Next, Halt>
    ensures { (k : Rest) → Coherent k → Leads program.now nodes.now depth k result run.new (given_on (left_to_do program.now nodes.now depth todo k) given run.old) }
{
    match todo {
        Todo::Begin(task) => match nothing_in(given) {
            None => Err(Halt::Wrong),
            Some(()) => start(alloc, program, nodes, depth, task, run),
        },
        Todo::Wait(waiting) => wait_on(alloc, program, nodes, depth, waiting, given, run),
        Todo::LeaveValue => match value_in(given) {
            None => Err(Halt::Wrong),
            Some(v) => leave_value(program, nodes, depth, Ok(v), run),
        },
        Todo::LeaveCompletion => match completion_in(given) {
            None => Err(Halt::Wrong),
            Some(c) => leave_completion(program, nodes, depth, Ok(c), run),
        },
        Todo::LeaveNothing => match nothing_in(given) {
            None => Err(Halt::Wrong),
            Some(()) => leave_nothing(program, nodes, depth, Ok(()), run),
        },
        Todo::Back { locals, frame } => match value_in(given) {
            None => Err(Halt::Wrong),
            Some(v) => back_value(program, nodes, depth, locals, frame, Ok(v), run),
        },
        Todo::Superclass { class } => match nothing_in(given) {
            None => Err(Halt::Wrong),
            Some(()) => superclass_ready(program, nodes, depth, class, run),
        },
        Todo::Initialiser { class } => match nothing_in(given) {
            None => Err(Halt::Wrong),
            Some(()) => initialised(alloc, program, nodes, depth, class, run),
        },
        Todo::Catch { catches } => match completion_in(given) {
            None => Err(Halt::Wrong),
            Some(c) => caught(program, nodes, depth, catches, c, run),
        },
        Todo::Finally { stmts } => match completion_in(given) {
            None => Err(Halt::Wrong),
            Some(c) => finally_behind(program, nodes, depth, stmts, c, run),
        },
    }
}

// A thrown object goes past what waits, and not past a `try` (JLS 11.3).
fn thrown(
    alloc: Global,
    program: &TypedProgram,
    nodes: &Nodes,
    depth: u64,
    todo: Todo,
    address: u64,
    run: &mut Running,
) -> Result<Next, Halt>
    ensures { (k : Rest) → Coherent k → Leads program.now nodes.now depth k result run.new ((left_to_do program.now nodes.now depth todo k).value (Thrown address run.old.units run.old.state)) }
{
    match todo {
        Todo::Begin(_task) => Err(Halt::Thrown(address)),
        Todo::Wait(_waiting) => Err(Halt::Thrown(address)),
        Todo::LeaveValue => leave_value(program, nodes, depth, Err(Halt::Thrown(address)), run),
        Todo::LeaveCompletion => {
            leave_completion(program, nodes, depth, Err(Halt::Thrown(address)), run)
        }
        Todo::LeaveNothing => leave_nothing(program, nodes, depth, Err(Halt::Thrown(address)), run),
        Todo::Back { locals, frame } => {
            back_value(
                program,
                nodes,
                depth,
                locals,
                frame,
                Err(Halt::Thrown(address)),
                run,
            )
        }
        Todo::Superclass { class } => {
            superclass_threw(alloc, program, nodes, depth, class, address, run)
        }
        Todo::Initialiser { class } => {
            initialiser_threw(alloc, program, nodes, depth, class, address, run)
        }
        Todo::Catch { catches } => {
            thrown_into(alloc, program, nodes, depth, catches, address, run)
        }
        Todo::Finally { stmts } => finally_thrown(program, nodes, depth, stmts, address, run),
    }
}

// What ended the run passes what is left to do.
fn passed(_todo: Todo, halt: Halt) -> Result<Next, Halt>
    ensures { result ≡ Err halt }
{
    Err(halt)
}

// Behind a computation that ended without giving anything.
fn halted(
    alloc: Global,
    program: &TypedProgram,
    nodes: &Nodes,
    depth: u64,
    todo: Todo,
    halt: Halt,
    run: &mut Running,
) -> Result<Next, Halt>
    ensures { (k : Rest) → Coherent k → (w : Out TypedState Value) → HaltLeads (left_to_do program.now nodes.now depth todo k) halt run.old w → Leads program.now nodes.now depth k result run.new w }
{
    match halt {
        Halt::Thrown(address) => thrown(alloc, program, nodes, depth, todo, address, run),
        Halt::Exited(_code) => passed(todo, halt),
        Halt::Going => passed(todo, halt),
        Halt::Wrong => passed(todo, halt),
        Halt::WantOfMemory => passed(todo, halt),
    }
}

/// What is left to do goes on behind how what ran above it ended.
pub fn go_on(
    alloc: Global,
    program: &TypedProgram,
    nodes: &Nodes,
    depth: u64,
    todo: Todo,
    now: Result<Given, Halt>,
    run: &mut Running,
) -> Result<Next, Halt>
    ensures { (k : Rest) → Coherent k → (w : Out TypedState Value) → GivenLeads (left_to_do program.now nodes.now depth todo k) now run.old w → Leads program.now nodes.now depth k result run.new w }
{
    match now {
        Ok(given) => take(alloc, program, nodes, depth, todo, given, run),
        Err(halt) => halted(alloc, program, nodes, depth, todo, halt, run),
    }
}
