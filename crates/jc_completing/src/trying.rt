//! Catch clauses and `finally` (JLS 14.20).
ghost use Rattle.std.specs.Prelude.{◌≡◌, [], IfOk, map};
ghost use Rattle.jc_meaning.specs.Statements as s;
ghost use Rattle.jc_pending.specs.Level as l;
ghost use Rattle.jc_typed.specs.Parts.{catches_of};
ghost use Rattle.std.specs.Option.{option_map};
ghost use Rattle.jc_running.specs.Outcomes.{Thrown, Val, throw};
ghost use Rattle.jc_places.specs.Sorts.{catch_of, catches_before};
ghost use Rattle.jc_pending.specs.Frames.{Rest, behind_finally, behind_try};
ghost use Rattle.jc_pending.specs.Leads.{Coherent, Leads};
ghost use Rattle.jc_completing.specs.Catching.{first_catch, taken};

use crate::acting::is_caught;
use jc_pending::{CompletionTask, CompletionToCompletion, Given, Next, Task, wait};
use jc_places::{CatchPlaces, catch_list};
use jc_rules::{Items, WantOfMemory};
use jc_running::{Completion, Value};
use jc_typed::{Nodes, TypedProgram};
use jc_types::Erased;
use jc_values::{Halt, Running, closed_erasure, set_local};
use std::alloc::Global;

// The first clause one of whose alternatives an exception is of (JLS 14.20.1).
fn first_catch(
    alloc: Global,
    program: &TypedProgram,
    nodes: &Nodes,
    e: Erased,
    clauses: &[CatchPlaces],
) -> Result<Option<CatchPlaces>, WantOfMemory>
    ensures { IfOk result (λ r. first_catch program.now e (map (catch_of nodes.now) clauses.now) ≡ option_map (catch_of nodes.now) r) }
{
    let mut rest = clauses;
    while let [first, more @ ..] = rest {
        if is_caught(alloc, program, nodes, e, first.types)? {
            return Ok(Some(*first));
        }
        rest = more;
    }
    Ok(None)
}

/// What a `try` completes with where its block completes (JLS 14.20.1).
pub fn caught(
    program: &TypedProgram,
    nodes: &Nodes,
    depth: u64,
    catches: u32,
    c: Completion,
    run: &mut Running,
) -> Result<Next, Halt>
    ensures { (k : Rest) → Coherent k → Leads program.now nodes.now depth k result run.new (behind_try program.now nodes.now depth catches k.completion (Val c run.old.units run.old.state)) }
{
    Ok(Next::Give(Given::Completion(c)))
}

// The clause of a `try` that takes an exception.
fn clause_for(
    alloc: Global,
    program: &TypedProgram,
    nodes: &Nodes,
    catches: u32,
    e: Erased,
) -> Result<Option<CatchPlaces>, WantOfMemory>
    ensures { IfOk result (λ r. first_catch program.now e (catches_before (catches_of nodes.now catches) []) ≡ option_map (catch_of nodes.now) r) }
{
    let list = catch_list(alloc, nodes, catches)?;
    let clause = first_catch(alloc, program, nodes, e, list.slice())?;
    Ok(clause)
}

// A clause runs with the exception in its variable; where there is none, it is thrown on.
#[tactic(auto, using(jc_pending::proofs::Halting::of_completion))]
fn taken(
    alloc: Global,
    program: &TypedProgram,
    nodes: &Nodes,
    depth: u64,
    clause: Option<CatchPlaces>,
    address: u64,
    run: &mut Running,
) -> Result<Next, Halt>
    ensures { (k : Rest) → Coherent k → Leads program.now nodes.now depth k result run.new (k.completion (taken program.now depth address (option_map (catch_of nodes.now) clause) run.old.units run.old.state)) }
{
    match clause {
        None => Err(Halt::Thrown(address)),
        Some(places) => {
            set_local(alloc, run, places.local as u64, Value::Address(address));
            Ok(Next::Begin(Task::Completion(CompletionTask::Stmt { at: places.body })))
        }
    }
}

fn catch_in(
    alloc: Global,
    program: &TypedProgram,
    nodes: &Nodes,
    depth: u64,
    catches: u32,
    address: u64,
    e: Erased,
    run: &mut Running,
) -> Result<Next, Halt>
    ensures { (k : Rest) → Coherent k → Leads program.now nodes.now depth k result run.new (k.completion (s.caught program.now (l.inner program.now depth) (l.run program.now depth) depth (catches_of nodes.now catches) address e (throw address) run.old.units run.old.state)) }
{
    let clause = clause_for(alloc, program, nodes, catches, e)?;
    taken(alloc, program, nodes, depth, clause, address, run)
}

/// Where the block throws an object, the first clause that takes it runs with it in its variable.
#[tactic(auto, using(jc_pending::proofs::Halting::of_completion))]
pub fn thrown_into(
    alloc: Global,
    program: &TypedProgram,
    nodes: &Nodes,
    depth: u64,
    catches: u32,
    address: u64,
    run: &mut Running,
) -> Result<Next, Halt>
    ensures { (k : Rest) → Coherent k → Leads program.now nodes.now depth k result run.new (behind_try program.now nodes.now depth catches k.completion (Thrown address run.old.units run.old.state)) }
{
    let Some(object) = run.state.heap.get(address as usize) else {
        return Err(Halt::Wrong);
    };
    let e = closed_erasure(alloc, &program.table, &object.kept);
    catch_in(alloc, program, nodes, depth, catches, address, e, run)
}

/// A finally block runs behind the rest where that completed (JLS 14.20.2).
pub fn finally_behind(
    program: &TypedProgram,
    nodes: &Nodes,
    depth: u64,
    stmts: Items<u32>,
    c: Completion,
    run: &mut Running,
) -> Result<Next, Halt>
    ensures { (k : Rest) → Coherent k → Leads program.now nodes.now depth k result run.new (behind_finally program.now nodes.now depth stmts k.completion (Val c run.old.units run.old.state)) }
{
    Ok(Next::Then(
        wait!(
            CompletionToCompletion,
            CompletionToCompletion::Instead { completion: c }
        ),
        Task::Completion(CompletionTask::Stmts { stmts }),
    ))
}

/// .. and where it threw.
pub fn finally_thrown(
    program: &TypedProgram,
    nodes: &Nodes,
    depth: u64,
    stmts: Items<u32>,
    address: u64,
    run: &mut Running,
) -> Result<Next, Halt>
    ensures { (k : Rest) → Coherent k → Leads program.now nodes.now depth k result run.new (behind_finally program.now nodes.now depth stmts k.completion (Thrown address run.old.units run.old.state)) }
{
    Ok(Next::Then(
        wait!(
            CompletionToCompletion,
            CompletionToCompletion::InsteadThrown { address }
        ),
        Task::Completion(CompletionTask::Stmts { stmts }),
    ))
}
