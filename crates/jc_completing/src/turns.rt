//! What a turn of a loop begins with (JLS 14.12 to 14.14).
ghost use Rattle.jc_pending.specs.Frames.{Rest};
ghost use Rattle.jc_pending.specs.Leads.{Coherent, Leads};
ghost use Rattle.jc_pending.specs.Loops.{completion_to_turn, nothing_to_turn, turn_task, value_to_turn};
ghost use Rattle.jc_pending.specs.declared.loops.CompletionToTurn.TheVariants as cr;
ghost use Rattle.jc_pending.specs.declared.loops.ValueToTurn.TheVariants as vr;

use jc_acts::ended;
use jc_numbers::boolean_of;
use jc_pending::{
    CallTask, CompletionTask, CompletionToTurn, Each, ExpressionTask, Given, Next, NothingTask,
    NothingToTurn, Task, TurnTask, ValueToTurn, call, expression, operand, wait,
};
use jc_rules::Items;
use jc_running::{Completion, Turn, Value};
use jc_typed::{Nodes, TypedProgram};
use jc_values::{Halt, Running};
use std::alloc::Global;

/// What a turn of a loop begins with (JLS 14.12 to 14.14).
pub fn turn_task(
    alloc: Global,
    program: &TypedProgram,
    nodes: &Nodes,
    depth: u64,
    task: TurnTask,
    run: &mut Running,
) -> Result<Next, Halt>
    ensures { (k : Rest) → Coherent k → Leads program.now nodes.now depth k result run.new (k.turn (turn_task program.now nodes.now depth task run.old.units run.old.state)) }
{
    match task {
        TurnTask::While { own, test, body } => Ok(Next::Then(
            wait!(ValueToTurn, ValueToTurn::While { own, body }),
            operand!(test),
        )),
        TurnTask::Do { own, body, test } => Ok(Next::Then(
            wait!(CompletionToTurn, CompletionToTurn::Do { own, test }),
            Task::Completion(CompletionTask::Stmt { at: body }),
        )),
        TurnTask::For {
            own,
            test,
            update,
            body,
        } => Ok(Next::Then(
            wait!(ValueToTurn, ValueToTurn::For { own, body, update }),
            expression!(ExpressionTask::Test { test }),
        )),
        TurnTask::Iterate { each, iterator } => Ok(Next::Then(
            wait!(ValueToTurn, ValueToTurn::HasNext { each, iterator }),
            call!(CallTask::Virtual {
                method: program.known.iterating.has_next,
                receiver: iterator,
                args: Items::new(alloc),
                types: Items::new(alloc),
            }),
        )),
    }
}

// There is an element more, or the loop ends.
#[tactic(auto, using(jc_pending::proofs::Halting::of_turn))]
fn has_next(
    alloc: Global,
    program: &TypedProgram,
    nodes: &Nodes,
    depth: u64,
    each: Each,
    iterator: Value,
    v: Value,
    run: &mut Running,
) -> Result<Next, Halt>
    ensures { (k : Rest) → Coherent k → Leads program.now nodes.now depth k result run.new (k.turn (value_to_turn program.now nodes.now depth (vr.HasNext each iterator) v run.old.units run.old.state)) }
{
    match boolean_of(v) {
        None => Err(Halt::Wrong),
        Some(true) => Ok(Next::Then(
            wait!(ValueToTurn, ValueToTurn::Next { each }),
            call!(CallTask::Virtual {
                method: program.known.iterating.next,
                receiver: iterator,
                args: Items::new(alloc),
                types: Items::new(alloc),
            }),
        )),
        Some(false) => Ok(Next::Give(Given::Turn(Turn::Last(Completion::Normal)))),
    }
}

/// What follows a test or an element in a turn.
#[tactic(auto, using(jc_pending::proofs::Halting::of_turn))]
pub fn value_to_turn(
    alloc: Global,
    program: &TypedProgram,
    nodes: &Nodes,
    depth: u64,
    todo: ValueToTurn,
    v: Value,
    run: &mut Running,
) -> Result<Next, Halt>
    ensures { (k : Rest) → Coherent k → Leads program.now nodes.now depth k result run.new (k.turn (value_to_turn program.now nodes.now depth todo v run.old.units run.old.state)) }
{
    match todo {
        ValueToTurn::While { own, body } => match boolean_of(v) {
            None => Err(Halt::Wrong),
            Some(true) => Ok(Next::Then(
                wait!(CompletionToTurn, CompletionToTurn::While { own }),
                Task::Completion(CompletionTask::Stmt { at: body }),
            )),
            Some(false) => Ok(Next::Give(Given::Turn(Turn::Last(Completion::Normal)))),
        },
        ValueToTurn::For { own, body, update } => match boolean_of(v) {
            None => Err(Halt::Wrong),
            Some(true) => Ok(Next::Then(
                wait!(CompletionToTurn, CompletionToTurn::For { own, update }),
                Task::Completion(CompletionTask::Stmt { at: body }),
            )),
            Some(false) => Ok(Next::Give(Given::Turn(Turn::Last(Completion::Normal)))),
        },
        ValueToTurn::Do => match boolean_of(v) {
            None => Err(Halt::Wrong),
            Some(true) => Ok(Next::Give(Given::Turn(Turn::Again(())))),
            Some(false) => Ok(Next::Give(Given::Turn(Turn::Last(Completion::Normal)))),
        },
        ValueToTurn::HasNext { each, iterator } => {
            has_next(alloc, program, nodes, depth, each, iterator, v, run)
        }
        ValueToTurn::Next { each } => Ok(Next::Then(
            wait!(
                NothingToTurn,
                NothingToTurn::Body {
                    own: each.own,
                    body: each.body
                }
            ),
            Task::Nothing(NothingTask::Take {
                place: each.place,
                ty: each.ty,
                captures: each.captures,
                steps: each.steps,
                local: each.local,
                value: v,
            }),
        )),
    }
}

// Behind the body of a `while` or of an enhanced `for`.
fn while_body(
    program: &TypedProgram,
    nodes: &Nodes,
    depth: u64,
    own: u32,
    c: Completion,
    run: &mut Running,
) -> Result<Next, Halt>
    ensures { (k : Rest) → Coherent k → Leads program.now nodes.now depth k result run.new (k.turn (completion_to_turn program.now nodes.now depth (cr.While own) c run.old.units run.old.state)) }
{
    match c {
        Completion::Normal => Ok(Next::Give(Given::Turn(Turn::Again(())))),
        Completion::Broke(t) => Ok(Next::Give(Given::Turn(Turn::Last(ended(own, t))))),
        Completion::Continued(t) => {
            if t == own {
                Ok(Next::Give(Given::Turn(Turn::Again(()))))
            } else {
                Ok(Next::Give(Given::Turn(Turn::Last(Completion::Continued(t)))))
            }
        }
        Completion::Returned(v) => {
            Ok(Next::Give(Given::Turn(Turn::Last(Completion::Returned(v)))))
        }
    }
}

// Behind the body of a `for` comes its update.
fn for_body(
    program: &TypedProgram,
    nodes: &Nodes,
    depth: u64,
    own: u32,
    update: u32,
    c: Completion,
    run: &mut Running,
) -> Result<Next, Halt>
    ensures { (k : Rest) → Coherent k → Leads program.now nodes.now depth k result run.new (k.turn (completion_to_turn program.now nodes.now depth (cr.For own update) c run.old.units run.old.state)) }
{
    match c {
        Completion::Normal => Ok(Next::Then(
            wait!(NothingToTurn, NothingToTurn::Again),
            Task::Nothing(NothingTask::Update { update }),
        )),
        Completion::Broke(t) => Ok(Next::Give(Given::Turn(Turn::Last(ended(own, t))))),
        Completion::Continued(t) => {
            if t == own {
                Ok(Next::Then(
                    wait!(NothingToTurn, NothingToTurn::Again),
                    Task::Nothing(NothingTask::Update { update }),
                ))
            } else {
                Ok(Next::Give(Given::Turn(Turn::Last(Completion::Continued(t)))))
            }
        }
        Completion::Returned(v) => {
            Ok(Next::Give(Given::Turn(Turn::Last(Completion::Returned(v)))))
        }
    }
}

// Behind the body of a `do` comes its test.
fn do_body(
    program: &TypedProgram,
    nodes: &Nodes,
    depth: u64,
    own: u32,
    test: u32,
    c: Completion,
    run: &mut Running,
) -> Result<Next, Halt>
    ensures { (k : Rest) → Coherent k → Leads program.now nodes.now depth k result run.new (k.turn (completion_to_turn program.now nodes.now depth (cr.Do own test) c run.old.units run.old.state)) }
{
    match c {
        Completion::Normal => Ok(Next::Then(wait!(ValueToTurn, ValueToTurn::Do), operand!(test))),
        Completion::Broke(t) => Ok(Next::Give(Given::Turn(Turn::Last(ended(own, t))))),
        Completion::Continued(t) => {
            if t == own {
                Ok(Next::Then(wait!(ValueToTurn, ValueToTurn::Do), operand!(test)))
            } else {
                Ok(Next::Give(Given::Turn(Turn::Last(Completion::Continued(t)))))
            }
        }
        Completion::Returned(v) => {
            Ok(Next::Give(Given::Turn(Turn::Last(Completion::Returned(v)))))
        }
    }
}

/// What follows the body in a turn: a `break` of the loop ends it, a `continue` of it goes on (JLS 14.12.1, 14.16).
pub fn completion_to_turn(
    program: &TypedProgram,
    nodes: &Nodes,
    depth: u64,
    todo: CompletionToTurn,
    c: Completion,
    run: &mut Running,
) -> Result<Next, Halt>
    ensures { (k : Rest) → Coherent k → Leads program.now nodes.now depth k result run.new (k.turn (completion_to_turn program.now nodes.now depth todo c run.old.units run.old.state)) }
{
    match todo {
        CompletionToTurn::While { own } => while_body(program, nodes, depth, own, c, run),
        CompletionToTurn::For { own, update } => {
            for_body(program, nodes, depth, own, update, c, run)
        }
        CompletionToTurn::Do { own, test } => do_body(program, nodes, depth, own, test, c, run),
    }
}

/// What follows the update of a `for`, or an element that is in its variable.
pub fn nothing_to_turn(
    program: &TypedProgram,
    nodes: &Nodes,
    depth: u64,
    todo: NothingToTurn,
    run: &mut Running,
) -> Result<Next, Halt>
    ensures { (k : Rest) → Coherent k → Leads program.now nodes.now depth k result run.new (k.turn (nothing_to_turn program.now nodes.now depth todo run.old.units run.old.state)) }
{
    match todo {
        NothingToTurn::Again => Ok(Next::Give(Given::Turn(Turn::Again(())))),
        NothingToTurn::Body { own, body } => Ok(Next::Then(
            wait!(CompletionToTurn, CompletionToTurn::While { own }),
            Task::Completion(CompletionTask::Stmt { at: body }),
        )),
    }
}
