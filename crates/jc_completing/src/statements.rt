//! Statements one after the other, and those of a `switch` (JLS 14.2, 14.11).
ghost use Rattle.std.specs.Prelude.{◌≡◌, IfOk, reverse};
ghost use Rattle.jc_running.specs.Outcomes.{bind, broken, give, stop};
ghost use Rattle.jc_typed.specs.Parts.{cases_of, stmts_of};
ghost use Rattle.jc_meaning.specs.Programs.{stmt_list};
ghost use Rattle.jc_meaning.specs.Statements as s;
ghost use Rattle.jc_values.specs.Idle.{idle};
ghost use Rattle.jc_pending.specs.Level as l;
ghost use Rattle.jc_pending.specs.Level.{stmts_back};
ghost use Rattle.jc_pending.specs.Frames.{Rest};
ghost use Rattle.jc_pending.specs.Leads.{Coherent, Leads};
ghost use Rattle.jc_pending.specs.Statements.{completion_to_completion, nothing_to_completion, value_to_completion, values_to_completion};
ghost use Rattle.jc_pending.specs.declared.statements.ValueToCompletion.TheVariants as vc;
ghost use Rattle.jc_pending.specs.declared.statements.ValuesToCompletion.TheVariants as lc;
ghost use Rattle.jc_pending.specs.declared.statements.CompletionToCompletion.TheVariants as cc;
ghost use Rattle.jc_completing.specs.Skipping.{behind_label};

use crate::acting::{label_of, returned_value};
use crate::listing::stmts_back;
use jc_acts::{broken, instead};
use jc_layout::is_static;
use jc_numbers::{boolean_of, whole_of};
use jc_pending::{
    CallTask, CompletionTask, CompletionToCompletion, Given, Next, NothingTask,
    NothingToCompletion, Task, TurnTask, ValueToCompletion, ValuesToCompletion, call, operands,
    wait,
};
use jc_places::case_list;
use jc_rules::{Items, WantOfMemory};
use jc_running::{Completion, Value};
use jc_typed::{Nodes, TypedProgram};
use jc_types::{FieldId, MethodId};
use jc_values::{Halt, Running, address_of, local, set_field};
use std::alloc::Global;

// The statements behind a label, of those that stand in reverse order; none where no label fits.
fn labelled_stmts(back: Items<u32>, skips: Option<u32>) -> Items<u32>
    ensures { reverse result ≡ behind_label skips (reverse back) }
{
    let mut list = back.into_vec();
    let kept = match skips {
        None => 0,
        Some(n) => list.len().saturating_sub(n as usize),
    };
    list.truncate(kept);
    Items::of(list)
}

// How many statements stand before the label of a number (JLS 14.11).
fn label_at(
    alloc: Global,
    program: &TypedProgram,
    nodes: &Nodes,
    cases: u32,
    n: i32,
) -> Result<Option<u32>, WantOfMemory>
    ensures { IfOk result (λ r. r ≡ s.or_else program.now idle (λ x. stop) 0 (s.labelled program.now idle (λ x. stop) 0 n (cases_of nodes.now cases)) (s.default_in program.now idle (λ x. stop) 0 (cases_of nodes.now cases))) }
{
    let list = case_list(alloc, nodes, cases)?;
    Ok(label_of(program, list.slice(), n))
}

// The statements behind a label, in reverse order.
fn stmts_behind(
    alloc: Global,
    nodes: &Nodes,
    stmts: u32,
    skips: Option<u32>,
) -> Result<Items<u32>, WantOfMemory>
    ensures { IfOk result (λ r. stmts_back nodes.now r ≡ behind_label skips (stmt_list (stmts_of nodes.now stmts))) }
{
    let back = stmts_back(alloc, nodes, stmts)?;
    Ok(labelled_stmts(back, skips))
}

fn switch_behind(
    alloc: Global,
    program: &TypedProgram,
    nodes: &Nodes,
    depth: u64,
    own: u32,
    stmts: u32,
    skips: Option<u32>,
    run: &mut Running,
) -> Result<Next, Halt>
    ensures { (k : Rest) → Coherent k → Leads program.now nodes.now depth k result run.new (k.completion (bind (s.run_from program.now (l.inner program.now depth) (l.run program.now depth) depth (stmt_list (stmts_of nodes.now stmts)) skips) (λ x. give (broken own x)) run.old.units run.old.state)) }
{
    let kept = stmts_behind(alloc, nodes, stmts, skips)?;
    Ok(Next::Then(
        wait!(
            CompletionToCompletion,
            CompletionToCompletion::Broken { own }
        ),
        Task::Completion(CompletionTask::Stmts { stmts: kept }),
    ))
}

fn switch_on(
    alloc: Global,
    program: &TypedProgram,
    nodes: &Nodes,
    depth: u64,
    own: u32,
    cases: u32,
    stmts: u32,
    n: i32,
    run: &mut Running,
) -> Result<Next, Halt>
    ensures { (k : Rest) → Coherent k → Leads program.now nodes.now depth k result run.new (k.completion (bind (s.switched program.now (l.inner program.now depth) (l.run program.now depth) depth (cases_of nodes.now cases) (stmt_list (stmts_of nodes.now stmts)) n) (λ x. give (broken own x)) run.old.units run.old.state)) }
{
    let skips = label_at(alloc, program, nodes, cases, n)?;
    switch_behind(alloc, program, nodes, depth, own, stmts, skips, run)
}

// The cases of a `switch`.
#[tactic(auto, using(jc_pending::proofs::Halting::of_completion))]
fn switch(
    alloc: Global,
    program: &TypedProgram,
    nodes: &Nodes,
    depth: u64,
    own: u32,
    cases: u32,
    stmts: u32,
    v: Value,
    run: &mut Running,
) -> Result<Next, Halt>
    ensures { (k : Rest) → Coherent k → Leads program.now nodes.now depth k result run.new (k.completion (value_to_completion program.now nodes.now depth (vc.Switch own cases stmts) v run.old.units run.old.state)) }
{
    match whole_of(v) {
        None => Err(Halt::Wrong),
        Some(n) => switch_on(alloc, program, nodes, depth, own, cases, stmts, n, run),
    }
}

// The initialiser of a field sets the static field, or that of this object (JLS 8.3.2).
#[tactic(auto, using(jc_pending::proofs::Halting::of_completion))]
fn initialise(
    alloc: Global,
    program: &TypedProgram,
    nodes: &Nodes,
    depth: u64,
    field: FieldId,
    v: Value,
    run: &mut Running,
) -> Result<Next, Halt>
    ensures { (k : Rest) → Coherent k → Leads program.now nodes.now depth k result run.new (k.completion (value_to_completion program.now nodes.now depth (vc.Initialise field) v run.old.units run.old.state)) }
{
    if is_static(&program.table, field) {
        return Ok(Next::Then(
            wait!(NothingToCompletion, NothingToCompletion::Normally),
            Task::Nothing(NothingTask::SetStatic { field, value: v }),
        ));
    }
    let o = local(run, 0)?;
    set_field(alloc, program, run, field, o, v)?;
    Ok(Next::Give(Given::Completion(Completion::Normal)))
}

#[tactic(auto, using(jc_pending::proofs::Halting::of_completion))]
fn throw(
    alloc: Global,
    program: &TypedProgram,
    nodes: &Nodes,
    depth: u64,
    v: Value,
    run: &mut Running,
) -> Result<Next, Halt>
    ensures { (k : Rest) → Coherent k → Leads program.now nodes.now depth k result run.new (k.completion (value_to_completion program.now nodes.now depth vc.Throw v run.old.units run.old.state)) }
{
    let a = address_of(alloc, program, run, v)?;
    Err(Halt::Thrown(a))
}

/// What follows a value in a statement.
#[tactic(auto, using(jc_pending::proofs::Halting::of_completion))]
pub fn value_to_completion(
    alloc: Global,
    program: &TypedProgram,
    nodes: &Nodes,
    depth: u64,
    todo: ValueToCompletion,
    v: Value,
    run: &mut Running,
) -> Result<Next, Halt>
    ensures { (k : Rest) → Coherent k → Leads program.now nodes.now depth k result run.new (k.completion (value_to_completion program.now nodes.now depth todo v run.old.units run.old.state)) }
{
    match todo {
        ValueToCompletion::Normally => Ok(Next::Give(Given::Completion(Completion::Normal))),
        ValueToCompletion::Arm { then, arms, other } => match boolean_of(v) {
            None => Err(Halt::Wrong),
            Some(true) => Ok(Next::Begin(Task::Completion(CompletionTask::Stmt { at: then }))),
            Some(false) => Ok(Next::Begin(Task::Completion(CompletionTask::Arms { arms, other }))),
        },
        ValueToCompletion::Throw => throw(alloc, program, nodes, depth, v, run),
        ValueToCompletion::Switch { own, cases, stmts } => {
            switch(alloc, program, nodes, depth, own, cases, stmts, v, run)
        }
        ValueToCompletion::Initialise { field } => {
            initialise(alloc, program, nodes, depth, field, v, run)
        }
        ValueToCompletion::EachOf { each } => {
            Ok(Next::Begin(Task::Completion(CompletionTask::ArrayTurns {
                each,
                array: v,
                at: 0,
                left: depth,
            })))
        }
        ValueToCompletion::IteratorOf { each } => Ok(Next::Then(
            wait!(ValueToCompletion, ValueToCompletion::Iterate { each }),
            call!(CallTask::Virtual {
                method: program.known.iterating.iterator,
                receiver: v,
                args: Items::new(alloc),
                types: Items::new(alloc),
            }),
        )),
        ValueToCompletion::Iterate { each } => {
            Ok(Next::Begin(Task::Completion(CompletionTask::Turns {
                turn: TurnTask::Iterate { each, iterator: v },
                left: depth,
            })))
        }
    }
}

// A call of a constructor by `this` or `super` (JLS 8.8.7.1).
#[tactic(auto, using(jc_pending::proofs::Halting::of_completion))]
fn construct(
    alloc: Global,
    program: &TypedProgram,
    nodes: &Nodes,
    depth: u64,
    method: MethodId,
    values: Items<Value>,
    run: &mut Running,
) -> Result<Next, Halt>
    ensures { (k : Rest) → Coherent k → Leads program.now nodes.now depth k result run.new (k.completion (values_to_completion program.now nodes.now depth (lc.Construct method) values run.old.units run.old.state)) }
{
    let receiver = local(run, 0)?;
    Ok(Next::Then(
        wait!(ValueToCompletion, ValueToCompletion::Normally),
        call!(CallTask::Direct {
            method,
            receiver,
            args: values,
            types: Items::new(alloc),
        }),
    ))
}

/// What follows the values of operands in a statement.
pub fn values_to_completion(
    alloc: Global,
    program: &TypedProgram,
    nodes: &Nodes,
    depth: u64,
    todo: ValuesToCompletion,
    values: Items<Value>,
    run: &mut Running,
) -> Result<Next, Halt>
    ensures { (k : Rest) → Coherent k → Leads program.now nodes.now depth k result run.new (k.completion (values_to_completion program.now nodes.now depth todo values run.old.units run.old.state)) }
{
    match todo {
        ValuesToCompletion::For {
            own,
            test,
            update,
            body,
        } => Ok(Next::Begin(Task::Completion(CompletionTask::Turns {
            turn: TurnTask::For {
                own,
                test,
                update,
                body,
            },
            left: depth,
        }))),
        ValuesToCompletion::Return => Ok(Next::Give(Given::Completion(Completion::Returned(
            returned_value(program, values.slice()),
        )))),
        ValuesToCompletion::Construct { method } => {
            construct(alloc, program, nodes, depth, method, values, run)
        }
    }
}

/// What follows what gives nothing in a statement.
pub fn nothing_to_completion(
    program: &TypedProgram,
    nodes: &Nodes,
    depth: u64,
    todo: NothingToCompletion,
    run: &mut Running,
) -> Result<Next, Halt>
    ensures { (k : Rest) → Coherent k → Leads program.now nodes.now depth k result run.new (k.completion (nothing_to_completion program.now nodes.now depth todo run.old.units run.old.state)) }
{
    match todo {
        NothingToCompletion::Normally => Ok(Next::Give(Given::Completion(Completion::Normal))),
        NothingToCompletion::For {
            own,
            before,
            test,
            update,
            body,
        } => Ok(Next::Then(
            wait!(
                ValuesToCompletion,
                ValuesToCompletion::For {
                    own,
                    test,
                    update,
                    body
                }
            ),
            operands!(before),
        )),
    }
}

// The statements that come next run where this one completed normally.
fn next(
    program: &TypedProgram,
    nodes: &Nodes,
    depth: u64,
    stmts: Items<u32>,
    c: Completion,
    run: &mut Running,
) -> Result<Next, Halt>
    ensures { (k : Rest) → Coherent k → Leads program.now nodes.now depth k result run.new (k.completion (completion_to_completion program.now nodes.now depth (cc.Next stmts) c run.old.units run.old.state)) }
{
    match c {
        Completion::Normal => Ok(Next::Begin(Task::Completion(CompletionTask::Stmts { stmts }))),
        Completion::Broke(t) => Ok(Next::Give(Given::Completion(Completion::Broke(t)))),
        Completion::Continued(t) => Ok(Next::Give(Given::Completion(Completion::Continued(t)))),
        Completion::Returned(v) => Ok(Next::Give(Given::Completion(Completion::Returned(v)))),
    }
}

// Behind a finally block an object is thrown on where the block completed normally (JLS 14.20.2).
#[tactic(auto, using(jc_pending::proofs::Halting::of_completion))]
fn thrown_on(
    program: &TypedProgram,
    nodes: &Nodes,
    depth: u64,
    address: u64,
    c: Completion,
    run: &mut Running,
) -> Result<Next, Halt>
    ensures { (k : Rest) → Coherent k → Leads program.now nodes.now depth k result run.new (k.completion (completion_to_completion program.now nodes.now depth (cc.InsteadThrown address) c run.old.units run.old.state)) }
{
    match c {
        Completion::Normal => Err(Halt::Thrown(address)),
        Completion::Broke(t) => Ok(Next::Give(Given::Completion(Completion::Broke(t)))),
        Completion::Continued(t) => Ok(Next::Give(Given::Completion(Completion::Continued(t)))),
        Completion::Returned(v) => Ok(Next::Give(Given::Completion(Completion::Returned(v)))),
    }
}

// Behind a finally block stays what completed before, unless the block completes otherwise (JLS 14.20.2).
fn instead_of(
    program: &TypedProgram,
    nodes: &Nodes,
    depth: u64,
    completion: Completion,
    c: Completion,
    run: &mut Running,
) -> Result<Next, Halt>
    ensures { (k : Rest) → Coherent k → Leads program.now nodes.now depth k result run.new (k.completion (completion_to_completion program.now nodes.now depth (cc.Instead completion) c run.old.units run.old.state)) }
{
    Ok(Next::Give(Given::Completion(instead(c, completion))))
}

/// What follows a statement or a finally block.
pub fn completion_to_completion(
    program: &TypedProgram,
    nodes: &Nodes,
    depth: u64,
    todo: CompletionToCompletion,
    c: Completion,
    run: &mut Running,
) -> Result<Next, Halt>
    ensures { (k : Rest) → Coherent k → Leads program.now nodes.now depth k result run.new (k.completion (completion_to_completion program.now nodes.now depth todo c run.old.units run.old.state)) }
{
    match todo {
        CompletionToCompletion::Broken { own } => {
            Ok(Next::Give(Given::Completion(broken(own, c))))
        }
        CompletionToCompletion::Instead { completion } => {
            instead_of(program, nodes, depth, completion, c, run)
        }
        CompletionToCompletion::InsteadThrown { address } => {
            thrown_on(program, nodes, depth, address, c, run)
        }
        CompletionToCompletion::Next { stmts } => next(program, nodes, depth, stmts, c, run),
    }
}
