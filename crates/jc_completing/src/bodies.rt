//! The bodies of methods (JLS 8.4.7, 8.8.7).
ghost use Rattle.std.specs.Prelude.{◌≡◌, ◌++◌, ◌∷◌, [], IfOk};
ghost use Rattle.jc_typed.specs.Parts.{stmt_of, stmts_of};
ghost use Rattle.jc_meaning.specs.Programs.{stmt_list};
ghost use Rattle.jc_pending.specs.Frames.{Rest};
ghost use Rattle.jc_pending.specs.Leads.{Coherent, Leads};
ghost use Rattle.jc_pending.specs.Level.{stmts_back};
ghost use Rattle.jc_pending.specs.Statements.{completion_task};
ghost use Rattle.jc_pending.specs.declared.statements.CompletionTask.TheVariants as t;

use crate::forms::act;
use crate::listing::{add_stmts, stmts_back};
use jc_pending::{
    CompletionTask, CompletionToCompletion, Each, Given, Level, Next, NumberedTask,
    NumberedToCompletion, Task, Todo, TurnTask, TurnToCompletion, ValueToCompletion, operand, wait,
};
use jc_places::ArmPlaces;
use jc_rules::{Items, WantOfMemory};
use jc_running::{Completion, Value};
use jc_typed::{Body, Nodes, TypedProgram};
use jc_types::MethodId;
use jc_values::{Halt, Running, native_act, native_of};
use std::alloc::Global;

// A statement as a node, which spends a unit as it is entered.
fn enter(
    program: &TypedProgram,
    nodes: &Nodes,
    depth: u64,
    at: u32,
    run: &mut Running,
) -> Result<Next, Halt>
    ensures { (k : Rest) → Coherent k → Leads program.now nodes.now depth k result run.new (k.completion (completion_task program.now nodes.now depth (t.Stmt at) run.old.units run.old.state)) }
{
    if depth == 0 {
        return Err(Halt::Going);
    }
    if run.units == 0 {
        return Err(Halt::Going);
    }
    run.units -= 1;
    Ok(Next::Deeper(
        Todo::LeaveCompletion,
        Task::Completion(CompletionTask::Act { at }),
    ))
}

// The body of a method as a node.
fn enter_body(
    program: &TypedProgram,
    nodes: &Nodes,
    depth: u64,
    method: MethodId,
    run: &mut Running,
) -> Result<Next, Halt>
    ensures { (k : Rest) → Coherent k → Leads program.now nodes.now depth k result run.new (k.completion (completion_task program.now nodes.now depth (t.Body method) run.old.units run.old.state)) }
{
    if depth == 0 {
        return Err(Halt::Going);
    }
    if run.units == 0 {
        return Err(Halt::Going);
    }
    run.units -= 1;
    Ok(Next::Deeper(
        Todo::LeaveCompletion,
        Task::Completion(CompletionTask::BodyAct { method }),
    ))
}

// The places of a body's statements, the last first: the call of another constructor, the initialisers, and the block.
fn body_back(alloc: Global, nodes: &Nodes, b: Body) -> Result<Items<u32>, WantOfMemory>
    ensures { IfOk result (λ r. stmt_list (stmts_of nodes.now b.call) ++ stmt_list (stmts_of nodes.now b.initialisers) ++ stmt_of nodes.now b.rest ∷ [] ≡ stmts_back nodes.now r) }
{
    let mut out = Items::new(alloc);
    out.push(b.rest)?;
    add_stmts(nodes, b.initialisers, &mut out)?;
    add_stmts(nodes, b.call, &mut out)?;
    Ok(out)
}

// What a body does: what the native method does, or its statements.
#[tactic(auto, using(jc_pending::proofs::Halting::of_completion))]
fn body_act(
    alloc: Global,
    program: &TypedProgram,
    nodes: &Nodes,
    depth: u64,
    method: MethodId,
    run: &mut Running,
) -> Result<Next, Halt>
    ensures { (k : Rest) → Coherent k → Leads program.now nodes.now depth k result run.new (k.completion (completion_task program.now nodes.now depth (t.BodyAct method) run.old.units run.old.state)) }
{
    if let Some(native) = native_of(&program.known.natives, method) {
        let v = native_act(alloc, program, run, native)?;
        return Ok(Next::Give(Given::Completion(Completion::Returned(v))));
    }
    let Some(typed) = program.methods.get(method.0 as usize) else {
        return Err(Halt::Wrong);
    };
    let Some(b) = typed.body else {
        return Err(Halt::Wrong);
    };
    let stmts = body_back(alloc, &typed.nodes, b)?;
    Ok(Next::At(
        Level { method, depth },
        Task::Completion(CompletionTask::Stmts { stmts }),
    ))
}

// One statement after the other (JLS 14.2).
#[tactic(auto, using(jc_places::proofs::Turned::turned))]
fn run_all(
    program: &TypedProgram,
    nodes: &Nodes,
    depth: u64,
    stmts: Items<u32>,
    run: &mut Running,
) -> Result<Next, Halt>
    ensures { (k : Rest) → Coherent k → Leads program.now nodes.now depth k result run.new (k.completion (completion_task program.now nodes.now depth (t.Stmts stmts) run.old.units run.old.state)) }
{
    let mut stmts = stmts;
    match stmts.pop() {
        None => Ok(Next::Give(Given::Completion(Completion::Normal))),
        Some(at) => Ok(Next::Then(
            wait!(
                CompletionToCompletion,
                CompletionToCompletion::Next { stmts }
            ),
            Task::Completion(CompletionTask::Stmt { at }),
        )),
    }
}

// The first test that holds, or else the rest (JLS 14.9).
#[tactic(auto, using(jc_places::proofs::Turned::turned))]
fn if_any(
    alloc: Global,
    program: &TypedProgram,
    nodes: &Nodes,
    depth: u64,
    arms: Items<ArmPlaces>,
    other: u32,
    run: &mut Running,
) -> Result<Next, Halt>
    ensures { (k : Rest) → Coherent k → Leads program.now nodes.now depth k result run.new (k.completion (completion_task program.now nodes.now depth (t.Arms arms other) run.old.units run.old.state)) }
{
    let mut arms = arms;
    match arms.pop() {
        None => {
            let stmts = stmts_back(alloc, nodes, other)?;
            Ok(Next::Begin(Task::Completion(CompletionTask::Stmts { stmts })))
        }
        Some(arm) => Ok(Next::Then(
            wait!(
                ValueToCompletion,
                ValueToCompletion::Arm {
                    then: arm.then,
                    arms,
                    other
                }
            ),
            operand!(arm.test),
        )),
    }
}

// Turn after turn of a loop, each of which spends a unit.
fn turns(
    program: &TypedProgram,
    nodes: &Nodes,
    depth: u64,
    turn: TurnTask,
    left: u64,
    run: &mut Running,
) -> Result<Next, Halt>
    ensures { (k : Rest) → Coherent k → Leads program.now nodes.now depth k result run.new (k.completion (completion_task program.now nodes.now depth (t.Turns turn left) run.old.units run.old.state)) }
{
    if left == 0 {
        return Err(Halt::Going);
    }
    if run.units == 0 {
        return Err(Halt::Going);
    }
    run.units -= 1;
    Ok(Next::Then(
        wait!(
            TurnToCompletion,
            TurnToCompletion::Turned {
                turn,
                left: left - 1
            }
        ),
        Task::Turn(turn),
    ))
}

fn array_turns(
    program: &TypedProgram,
    nodes: &Nodes,
    depth: u64,
    each: Each,
    array: Value,
    at: u64,
    left: u64,
    run: &mut Running,
) -> Result<Next, Halt>
    ensures { (k : Rest) → Coherent k → Leads program.now nodes.now depth k result run.new (k.completion (completion_task program.now nodes.now depth (t.ArrayTurns each array at left) run.old.units run.old.state)) }
{
    if left == 0 {
        return Err(Halt::Going);
    }
    if run.units == 0 {
        return Err(Halt::Going);
    }
    run.units -= 1;
    Ok(Next::Then(
        wait!(
            NumberedToCompletion,
            NumberedToCompletion::Turned {
                each,
                array,
                left: left - 1
            }
        ),
        Task::Numbered(NumberedTask::Element { each, array, at }),
    ))
}

/// What a computation begins with that completes.
pub fn completion_task(
    alloc: Global,
    program: &TypedProgram,
    nodes: &Nodes,
    depth: u64,
    task: CompletionTask,
    run: &mut Running,
) -> Result<Next, Halt>
    ensures { (k : Rest) → Coherent k → Leads program.now nodes.now depth k result run.new (k.completion (completion_task program.now nodes.now depth task run.old.units run.old.state)) }
{
    match task {
        CompletionTask::Stmt { at } => enter(program, nodes, depth, at, run),
        CompletionTask::Act { at } => act(alloc, program, nodes, depth, at, run),
        CompletionTask::Body { method } => enter_body(program, nodes, depth, method, run),
        CompletionTask::BodyAct { method } => body_act(alloc, program, nodes, depth, method, run),
        CompletionTask::Stmts { stmts } => run_all(program, nodes, depth, stmts, run),
        CompletionTask::Arms { arms, other } => {
            if_any(alloc, program, nodes, depth, arms, other, run)
        }
        CompletionTask::Try { body, catches } => Ok(Next::Then(
            Todo::Catch { catches },
            Task::Completion(CompletionTask::Stmt { at: body }),
        )),
        CompletionTask::Turns { turn, left } => turns(program, nodes, depth, turn, left, run),
        CompletionTask::ArrayTurns {
            each,
            array,
            at,
            left,
        } => array_turns(program, nodes, depth, each, array, at, left, run),
    }
}
