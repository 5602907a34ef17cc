//! What follows a turn of a loop (JLS 14.12 to 14.14).
ghost use Rattle.jc_pending.specs.declared.loops.CompletionToNumbered.TheVariants as cm;
ghost use Rattle.jc_pending.specs.Frames.{Rest};
ghost use Rattle.jc_pending.specs.Leads.{Coherent, Leads};
ghost use Rattle.jc_pending.specs.Loops.{completion_to_numbered, nothing_to_numbered, numbered_task, numbered_to_completion, turn_to_completion};

use crate::acting::after_element;
use jc_acts::is_before;
use jc_pending::{
    CompletionTask, CompletionToNumbered, Given, Next, NothingTask, NothingToNumbered,
    NumberedTask, NumberedToCompletion, Task, TurnToCompletion, wait,
};
use jc_running::{Completion, Turn, Value};
use jc_typed::{Nodes, TypedProgram};
use jc_values::{Halt, Running, get_element, length_of};
use std::alloc::Global;

/// What follows a turn: another one, or the loop completes.
pub fn turn_to_completion(
    program: &TypedProgram,
    nodes: &Nodes,
    depth: u64,
    todo: TurnToCompletion,
    ended: Turn<()>,
    run: &mut Running,
) -> Result<Next, Halt>
    ensures { (k : Rest) → Coherent k → Leads program.now nodes.now depth k result run.new (k.completion (turn_to_completion program.now nodes.now depth todo ended run.old.units run.old.state)) }
{
    let TurnToCompletion::Turned { turn, left } = todo;
    match ended {
        Turn::Again(_) => Ok(Next::Begin(Task::Completion(CompletionTask::Turns { turn, left }))),
        Turn::Last(c) => Ok(Next::Give(Given::Completion(c))),
    }
}

/// A turn over an array, whose length and element are read as the turn begins (JLS 14.14.2).
#[tactic(auto, using(jc_pending::proofs::Halting::of_numbered))]
pub fn numbered_task(
    alloc: Global,
    program: &TypedProgram,
    nodes: &Nodes,
    depth: u64,
    task: NumberedTask,
    run: &mut Running,
) -> Result<Next, Halt>
    ensures { (k : Rest) → Coherent k → Leads program.now nodes.now depth k result run.new (k.numbered (numbered_task program.now nodes.now depth task run.old.units run.old.state)) }
{
    let NumberedTask::Element { each, array, at } = task;
    let Value::Whole(length) = length_of(alloc, program, run, array)? else {
        return Err(Halt::Wrong);
    };
    if !is_before(at, length) {
        return Ok(Next::Give(Given::Numbered(Turn::Last(Completion::Normal))));
    }
    let value = get_element(alloc, program, run, array, Value::Whole(at as i32))?;
    Ok(Next::Then(
        wait!(
            NothingToNumbered,
            NothingToNumbered::Body {
                own: each.own,
                body: each.body,
                next: at + 1
            }
        ),
        Task::Nothing(NothingTask::Take {
            place: each.place,
            ty: each.ty,
            captures: each.captures,
            steps: each.steps,
            local: each.local,
            value,
        }),
    ))
}

/// What follows an element of an array that is in its variable.
pub fn nothing_to_numbered(
    program: &TypedProgram,
    nodes: &Nodes,
    depth: u64,
    todo: NothingToNumbered,
    run: &mut Running,
) -> Result<Next, Halt>
    ensures { (k : Rest) → Coherent k → Leads program.now nodes.now depth k result run.new (k.numbered (nothing_to_numbered program.now nodes.now depth todo run.old.units run.old.state)) }
{
    let NothingToNumbered::Body { own, body, next } = todo;
    Ok(Next::Then(
        wait!(
            CompletionToNumbered,
            CompletionToNumbered::After { own, next }
        ),
        Task::Completion(CompletionTask::Stmt { at: body }),
    ))
}

fn after(
    program: &TypedProgram,
    nodes: &Nodes,
    depth: u64,
    own: u32,
    next: u64,
    c: Completion,
    run: &mut Running,
) -> Result<Next, Halt>
    ensures { (k : Rest) → Coherent k → Leads program.now nodes.now depth k result run.new (k.numbered (completion_to_numbered program.now nodes.now depth (cm.After own next) c run.old.units run.old.state)) }
{
    Ok(Next::Give(Given::Numbered(after_element(program, own, c, next))))
}

/// What follows the body in a turn over an array.
pub fn completion_to_numbered(
    program: &TypedProgram,
    nodes: &Nodes,
    depth: u64,
    todo: CompletionToNumbered,
    c: Completion,
    run: &mut Running,
) -> Result<Next, Halt>
    ensures { (k : Rest) → Coherent k → Leads program.now nodes.now depth k result run.new (k.numbered (completion_to_numbered program.now nodes.now depth todo c run.old.units run.old.state)) }
{
    match todo {
        CompletionToNumbered::After { own, next } => after(
            program, nodes, depth, own, next, c, run,
        ),
    }
}

/// What follows a turn over an array.
pub fn numbered_to_completion(
    program: &TypedProgram,
    nodes: &Nodes,
    depth: u64,
    todo: NumberedToCompletion,
    ended: Turn<u64>,
    run: &mut Running,
) -> Result<Next, Halt>
    ensures { (k : Rest) → Coherent k → Leads program.now nodes.now depth k result run.new (k.completion (numbered_to_completion program.now nodes.now depth todo ended run.old.units run.old.state)) }
{
    let NumberedToCompletion::Turned { each, array, left } = todo;
    match ended {
        Turn::Again(at) => Ok(Next::Begin(Task::Completion(CompletionTask::ArrayTurns {
            each,
            array,
            at,
            left,
        }))),
        Turn::Last(c) => Ok(Next::Give(Given::Completion(c))),
    }
}
