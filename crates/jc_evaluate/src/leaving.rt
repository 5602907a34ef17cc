//! Nodes and calls that are left, in whatever way.
ghost use Rattle.jc_heaps.specs.States.{back_in};
ghost use Rattle.jc_meaning.specs.Kept.{TypedState};
ghost use Rattle.jc_pending.specs.Frames.{Rest};
ghost use Rattle.jc_pending.specs.Leads.{Coherent, Leads};
ghost use Rattle.jc_running.specs.Outcomes.{Out, leave};
ghost use Rattle.jc_running.specs.declared.value.Completion.{Completion};
ghost use Rattle.jc_running.specs.declared.value.Value.{Value};
ghost use Rattle.jc_values.specs.Doing.{Does};

use jc_acts::{back, left, left_class, left_value};
use jc_meaning::Frame;
use jc_pending::{Given, Next};
use jc_rules::Items;
use jc_running::{Completion, Value};
use jc_typed::{Nodes, TypedProgram};
use jc_values::{Halt, Running};

/// A node that gives a value spends a unit as it is left.
#[tactic(auto, using(jc_pending::proofs::Halting::of_value))]
pub fn leave_value(
    program: &TypedProgram,
    nodes: &Nodes,
    depth: u64,
    outcome: Result<Value, Halt>,
    run: &mut Running,
) -> Result<Next, Halt>
    ensures { (k : Rest) → Coherent k → (o : Out TypedState Value) → Does o outcome run.old → Leads program.now nodes.now depth k result run.new (k.value (leave o)) }
{
    let v = left_value(run, outcome)?;
    Ok(Next::Give(Given::Value(v)))
}

/// .. one that completes
#[tactic(auto, using(jc_pending::proofs::Halting::of_completion))]
pub fn leave_completion(
    program: &TypedProgram,
    nodes: &Nodes,
    depth: u64,
    outcome: Result<Completion, Halt>,
    run: &mut Running,
) -> Result<Next, Halt>
    ensures { (k : Rest) → Coherent k → (o : Out TypedState Completion) → Does o outcome run.old → Leads program.now nodes.now depth k result run.new (k.completion (leave o)) }
{
    let c = left(run, outcome)?;
    Ok(Next::Give(Given::Completion(c)))
}

/// .. and one that gives nothing.
#[tactic(auto, using(jc_pending::proofs::Halting::of_nothing))]
pub fn leave_nothing(
    program: &TypedProgram,
    nodes: &Nodes,
    depth: u64,
    outcome: Result<(), Halt>,
    run: &mut Running,
) -> Result<Next, Halt>
    ensures { (k : Rest) → Coherent k → (o : Out TypedState (Unit {0})) → Does o outcome run.old → Leads program.now nodes.now depth k result run.new (k.nothing (leave o)) }
{
    left_class(run, outcome)?;
    Ok(Next::Give(Given::Nothing))
}

/// Behind a call the former variables and frame come back.
#[tactic(auto, using(jc_pending::proofs::Halting::of_value))]
pub fn back_value(
    program: &TypedProgram,
    nodes: &Nodes,
    depth: u64,
    locals: Items<Value>,
    frame: Frame,
    outcome: Result<Value, Halt>,
    run: &mut Running,
) -> Result<Next, Halt>
    ensures { (k : Rest) → Coherent k → (o : Out TypedState Value) → Does o outcome run.old → Leads program.now nodes.now depth k result run.new (k.value (back_in locals frame o)) }
{
    let v = back(run, locals, frame, outcome)?;
    Ok(Next::Give(Given::Value(v)))
}
