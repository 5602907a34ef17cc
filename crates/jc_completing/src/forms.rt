//! The forms of statements, each with what it begins (JLS 14).
ghost use Rattle.jc_types.specs.declared.conversion.Phase.{Phase};
ghost use Rattle.jc_pending.specs.Frames.{Rest};
ghost use Rattle.jc_pending.specs.Leads.{Coherent, Leads};
ghost use Rattle.jc_typed.specs.Parts.{parts, stmt_form_over};
ghost use Rattle.jc_typed.specs.declared.statements.StmtForm.TheVariants as f;
ghost use Rattle.jc_meaning.specs.Statements as s;
ghost use Rattle.jc_pending.specs.Level as l;
ghost use Rattle.jc_pending.specs.Statements.{completion_task};
ghost use Rattle.jc_pending.specs.declared.statements.CompletionTask.TheVariants as t;
ghost use Rattle.jc_running.specs.declared.value.Completion.{Completion};
ghost use Rattle.jc_typed.specs.Trees.{StmtForm};

use crate::listing::{arms_back, stmts_back};
use jc_pending::{
    CompletionTask, CompletionToCompletion, Each, Given, Next, NothingTask, NothingToCompletion,
    Task, Todo, TurnTask, ValueToCompletion, ValuesToCompletion, operand, operands, wait,
};
use jc_places::stmt_node;
use jc_rules::Place;
use jc_running::Completion;
use jc_typed::{Nodes, StmtForm, TypedProgram};
use jc_values::{Halt, Running};
use std::alloc::Global;

// The statements of a block.
fn block(
    alloc: Global,
    program: &TypedProgram,
    nodes: &Nodes,
    depth: u64,
    place: Place,
    stmts: u32,
    run: &mut Running,
) -> Result<Next, Halt>
    ensures { (k : Rest) → Coherent k → Leads program.now nodes.now depth k result run.new (k.completion (s.form_act program.now (l.inner program.now depth) (l.run program.now depth) depth place (stmt_form_over (parts nodes.now) (f.Block stmts)) run.old.units run.old.state)) }
{
    let stmts = stmts_back(alloc, nodes, stmts)?;
    Ok(Next::Begin(Task::Completion(CompletionTask::Stmts { stmts })))
}

// Tests and their statements (JLS 14.9).
#[tactic(auto, using(jc_pending::proofs::Lists::arms_on))]
fn if_else(
    alloc: Global,
    program: &TypedProgram,
    nodes: &Nodes,
    depth: u64,
    place: Place,
    arms: u32,
    other: u32,
    run: &mut Running,
) -> Result<Next, Halt>
    ensures { (k : Rest) → Coherent k → Leads program.now nodes.now depth k result run.new (k.completion (s.form_act program.now (l.inner program.now depth) (l.run program.now depth) depth place (stmt_form_over (parts nodes.now) (f.If arms other)) run.old.units run.old.state)) }
{
    let arms = arms_back(alloc, nodes, arms)?;
    Ok(Next::Begin(Task::Completion(CompletionTask::Arms { arms, other })))
}

// A `try`, and a finally block behind it if there is one (JLS 14.20).
fn try_finally(
    alloc: Global,
    program: &TypedProgram,
    nodes: &Nodes,
    depth: u64,
    place: Place,
    body: u32,
    catches: u32,
    last: u32,
    copies: u64,
    run: &mut Running,
) -> Result<Next, Halt>
    ensures { (k : Rest) → Coherent k → Leads program.now nodes.now depth k result run.new (k.completion (s.form_act program.now (l.inner program.now depth) (l.run program.now depth) depth place (stmt_form_over (parts nodes.now) (f.Try body catches last copies)) run.old.units run.old.state)) }
{
    let stmts = stmts_back(alloc, nodes, last)?;
    let task = Task::Completion(CompletionTask::Try { body, catches });
    if stmts.is_empty() {
        return Ok(Next::Begin(task));
    }
    Ok(Next::Then(Todo::Finally { stmts }, task))
}

// What the loops begin with (JLS 14.12 to 14.14).
fn turning(
    program: &TypedProgram,
    nodes: &Nodes,
    depth: u64,
    turn: TurnTask,
    run: &mut Running,
) -> Result<Next, Halt>
    ensures { (k : Rest) → Coherent k → Leads program.now nodes.now depth k result run.new (k.completion (completion_task program.now nodes.now depth (t.Turns turn depth) run.old.units run.old.state)) }
{
    Ok(Next::Begin(Task::Completion(CompletionTask::Turns { turn, left: depth })))
}

// What the form of a statement begins with.
fn form(
    alloc: Global,
    program: &TypedProgram,
    nodes: &Nodes,
    depth: u64,
    place: Place,
    form: StmtForm,
    run: &mut Running,
) -> Result<Next, Halt>
    ensures { (k : Rest) → Coherent k → Leads program.now nodes.now depth k result run.new (k.completion (s.form_act program.now (l.inner program.now depth) (l.run program.now depth) depth place (stmt_form_over (parts nodes.now) form) run.old.units run.old.state)) }
{
    match form {
        StmtForm::Empty => Ok(Next::Give(Given::Completion(Completion::Normal))),
        StmtForm::Block { stmts } => block(alloc, program, nodes, depth, place, stmts, run),
        StmtForm::Locals { declared } => Ok(Next::Then(
            wait!(NothingToCompletion, NothingToCompletion::Normally),
            Task::Nothing(NothingTask::Declare { declared }),
        )),
        StmtForm::Effect { of } => Ok(Next::Then(
            wait!(ValueToCompletion, ValueToCompletion::Normally),
            operand!(of),
        )),
        StmtForm::If { arms, other } => {
            if_else(alloc, program, nodes, depth, place, arms, other, run)
        }
        StmtForm::Labelled { target, body } => Ok(Next::Then(
            wait!(
                CompletionToCompletion,
                CompletionToCompletion::Broken { own: target }
            ),
            Task::Completion(CompletionTask::Stmt { at: body }),
        )),
        StmtForm::While { target, test, body } => turning(
            program,
            nodes,
            depth,
            TurnTask::While {
                own: target,
                test,
                body,
            },
            run,
        ),
        StmtForm::Do { target, body, test } => turning(
            program,
            nodes,
            depth,
            TurnTask::Do {
                own: target,
                body,
                test,
            },
            run,
        ),
        StmtForm::For {
            target,
            declared,
            before,
            test,
            update,
            body,
        } => Ok(Next::Then(
            wait!(
                NothingToCompletion,
                NothingToCompletion::For {
                    own: target,
                    before,
                    test,
                    update,
                    body
                }
            ),
            Task::Nothing(NothingTask::Declare { declared }),
        )),
        StmtForm::ForArray {
            target,
            of,
            ty,
            captures,
            steps,
            local,
            body,
        } => Ok(Next::Then(
            wait!(
                ValueToCompletion,
                ValueToCompletion::EachOf {
                    each: Each {
                        own: target,
                        place,
                        ty,
                        captures,
                        steps,
                        local,
                        body
                    }
                }
            ),
            operand!(of),
        )),
        StmtForm::ForIterable {
            target,
            of,
            ty,
            captures,
            steps,
            local,
            body,
        } => Ok(Next::Then(
            wait!(
                ValueToCompletion,
                ValueToCompletion::IteratorOf {
                    each: Each {
                        own: target,
                        place,
                        ty,
                        captures,
                        steps,
                        local,
                        body
                    }
                }
            ),
            operand!(of),
        )),
        StmtForm::Switch {
            target,
            of,
            cases,
            stmts,
        } => Ok(Next::Then(
            wait!(
                ValueToCompletion,
                ValueToCompletion::Switch {
                    own: target,
                    cases,
                    stmts
                }
            ),
            operand!(of),
        )),
        StmtForm::Return { value } => Ok(Next::Then(
            wait!(ValuesToCompletion, ValuesToCompletion::Return),
            operands!(value),
        )),
        StmtForm::Break { target } => {
            Ok(Next::Give(Given::Completion(Completion::Broke(target))))
        }
        StmtForm::Continue { target } => {
            Ok(Next::Give(Given::Completion(Completion::Continued(target))))
        }
        StmtForm::Throw { of } => Ok(Next::Then(
            wait!(ValueToCompletion, ValueToCompletion::Throw),
            operand!(of),
        )),
        StmtForm::Try {
            body,
            catches,
            last,
            copies,
        } => try_finally(
            alloc, program, nodes, depth, place, body, catches, last, copies, run,
        ),
        StmtForm::Construct {
            constructor,
            args,
            ..
        } => Ok(Next::Then(
            wait!(
                ValuesToCompletion,
                ValuesToCompletion::Construct {
                    method: constructor
                }
            ),
            operands!(args),
        )),
        StmtForm::Initialise { field, value } => Ok(Next::Then(
            wait!(ValueToCompletion, ValueToCompletion::Initialise { field }),
            operand!(value),
        )),
    }
}

/// What a statement begins with.
pub fn act(
    alloc: Global,
    program: &TypedProgram,
    nodes: &Nodes,
    depth: u64,
    at: u32,
    run: &mut Running,
) -> Result<Next, Halt>
    ensures { (k : Rest) → Coherent k → Leads program.now nodes.now depth k result run.new (k.completion (completion_task program.now nodes.now depth (t.Act at) run.old.units run.old.state)) }
{
    let node = stmt_node(nodes, at);
    form(alloc, program, nodes, depth, node.place, node.form, run)
}
