//! The initialisation of classes (JLS 12.4.2).
ghost use Rattle.jc_running.specs.Outcomes.{Thrown, Val};
ghost use Rattle.jc_pending.specs.Frames.{Rest, behind_initialiser, behind_superclass};
ghost use Rattle.jc_pending.specs.Leads.{Coherent, Leads};
ghost use Rattle.jc_pending.specs.Values.{class_task};
ghost use Rattle.jc_pending.specs.declared.calls.ClassTask.TheVariants as class;

use jc_acts::{as_error, initialiser_of, set_readiness};
use jc_layout::superclass_of;
use jc_pending::{CallTask, ClassTask, Given, Next, Todo, ValueToNothing, call, class, wait};
use jc_rules::Items;
use jc_running::Readiness;
use jc_typed::{Nodes, TypedProgram};
use jc_types::{ClassId, is_interface};
use jc_values::{Halt, Running, make_plain};
use std::alloc::Global;

// A class is made ready for use (JLS 12.4.2).
#[tactic(auto, using(jc_pending::proofs::Halting::of_nothing, jc_pending::proofs::Entering::ready_is))]
fn ready(
    alloc: Global,
    program: &TypedProgram,
    nodes: &Nodes,
    depth: u64,
    of: ClassId,
    run: &mut Running,
) -> Result<Next, Halt>
    ensures { (k : Rest) → Coherent k → Leads program.now nodes.now depth k result run.new (k.nothing (class_task program.now nodes.now depth (class.Ready of) run.old.units run.old.state)) }
{
    let Some(readiness) = run.state.classes.get(of.0 as usize) else {
        return Err(Halt::Wrong);
    };
    match readiness {
        Readiness::Untouched => Ok(Next::Begin(class!(ClassTask::First { class: of }))),
        Readiness::Begun => Ok(Next::Give(Given::Nothing)),
        Readiness::Ready => Ok(Next::Give(Given::Nothing)),
        Readiness::Failed => {
            let thrown = make_plain(alloc, &program.table, run, program.known.thrown.no_class)?;
            Err(Halt::Thrown(thrown))
        }
    }
}

// The first use of a class, as a node, which spends a unit as it is entered.
fn first_use(
    program: &TypedProgram,
    nodes: &Nodes,
    depth: u64,
    of: ClassId,
    run: &mut Running,
) -> Result<Next, Halt>
    ensures { (k : Rest) → Coherent k → Leads program.now nodes.now depth k result run.new (k.nothing (class_task program.now nodes.now depth (class.First of) run.old.units run.old.state)) }
{
    if depth == 0 {
        return Err(Halt::Going);
    }
    if run.units == 0 {
        return Err(Halt::Going);
    }
    run.units -= 1;
    Ok(Next::Deeper(
        Todo::LeaveNothing,
        class!(ClassTask::Initialise { class: of }),
    ))
}

// The class is marked, and its superclass comes first (JLS 12.4.2).
fn initialise(
    alloc: Global,
    program: &TypedProgram,
    nodes: &Nodes,
    depth: u64,
    of: ClassId,
    run: &mut Running,
) -> Result<Next, Halt>
    ensures { (k : Rest) → Coherent k → Leads program.now nodes.now depth k result run.new (k.nothing (class_task program.now nodes.now depth (class.Initialise of) run.old.units run.old.state)) }
{
    set_readiness(alloc, run, of, Readiness::Begun);
    Ok(Next::Then(
        Todo::Superclass { class: of },
        class!(ClassTask::Superclass { class: of }),
    ))
}

// The superclass first; an interface initialises nothing above it (JLS 12.4.1).
fn superclass_first(
    program: &TypedProgram,
    nodes: &Nodes,
    depth: u64,
    of: ClassId,
    run: &mut Running,
) -> Result<Next, Halt>
    ensures { (k : Rest) → Coherent k → Leads program.now nodes.now depth k result run.new (k.nothing (class_task program.now nodes.now depth (class.Superclass of) run.old.units run.old.state)) }
{
    if is_interface(&program.table, of) {
        return Ok(Next::Give(Given::Nothing));
    }
    match superclass_of(&program.table, of) {
        None => Ok(Next::Give(Given::Nothing)),
        Some(above) => Ok(Next::Begin(class!(ClassTask::Ready { class: above }))),
    }
}

fn run_initialiser(
    alloc: Global,
    program: &TypedProgram,
    nodes: &Nodes,
    depth: u64,
    of: ClassId,
    run: &mut Running,
) -> Result<Next, Halt>
    ensures { (k : Rest) → Coherent k → Leads program.now nodes.now depth k result run.new (k.nothing (class_task program.now nodes.now depth (class.Initialiser of) run.old.units run.old.state)) }
{
    match initialiser_of(&program.table, of) {
        None => Ok(Next::Give(Given::Nothing)),
        Some(method) => Ok(Next::Then(
            wait!(ValueToNothing, ValueToNothing::Drop),
            call!(CallTask::Static {
                method,
                args: Items::new(alloc),
                types: Items::new(alloc),
            }),
        )),
    }
}

/// What a computation for a class begins with.
pub fn class_task(
    alloc: Global,
    program: &TypedProgram,
    nodes: &Nodes,
    depth: u64,
    task: ClassTask,
    run: &mut Running,
) -> Result<Next, Halt>
    ensures { (k : Rest) → Coherent k → Leads program.now nodes.now depth k result run.new (k.nothing (class_task program.now nodes.now depth task run.old.units run.old.state)) }
{
    match task {
        ClassTask::Ready { class: of } => ready(alloc, program, nodes, depth, of, run),
        ClassTask::First { class: of } => first_use(program, nodes, depth, of, run),
        ClassTask::Initialise { class: of } => initialise(alloc, program, nodes, depth, of, run),
        ClassTask::Superclass { class: of } => superclass_first(program, nodes, depth, of, run),
        ClassTask::Initialiser { class: of } => {
            run_initialiser(alloc, program, nodes, depth, of, run)
        }
    }
}

/// A class whose superclass is ready runs its own initialiser.
pub fn superclass_ready(
    program: &TypedProgram,
    nodes: &Nodes,
    depth: u64,
    of: ClassId,
    run: &mut Running,
) -> Result<Next, Halt>
    ensures { (k : Rest) → Coherent k → Leads program.now nodes.now depth k result run.new (behind_superclass program.now nodes.now depth of k.nothing (Val tt run.old.units run.old.state)) }
{
    Ok(Next::Then(
        Todo::Initialiser { class: of },
        class!(ClassTask::Initialiser { class: of }),
    ))
}

/// A class whose superclass threw has failed.
#[tactic(auto, using(jc_pending::proofs::Halting::of_nothing))]
pub fn superclass_threw(
    alloc: Global,
    program: &TypedProgram,
    nodes: &Nodes,
    depth: u64,
    of: ClassId,
    address: u64,
    run: &mut Running,
) -> Result<Next, Halt>
    ensures { (k : Rest) → Coherent k → Leads program.now nodes.now depth k result run.new (behind_superclass program.now nodes.now depth of k.nothing (Thrown address run.old.units run.old.state)) }
{
    set_readiness(alloc, run, of, Readiness::Failed);
    Err(Halt::Thrown(address))
}

/// A class whose own initialiser came to its end is ready.
pub fn initialised(
    alloc: Global,
    program: &TypedProgram,
    nodes: &Nodes,
    depth: u64,
    of: ClassId,
    run: &mut Running,
) -> Result<Next, Halt>
    ensures { (k : Rest) → Coherent k → Leads program.now nodes.now depth k result run.new (behind_initialiser program.now nodes.now depth of k.nothing (Val tt run.old.units run.old.state)) }
{
    set_readiness(alloc, run, of, Readiness::Ready);
    Ok(Next::Give(Given::Nothing))
}

/// A class whose own initialiser threw has failed, and what isn't an Error becomes one (JLS 12.4.2).
#[tactic(auto, using(jc_pending::proofs::Halting::of_nothing))]
pub fn initialiser_threw(
    alloc: Global,
    program: &TypedProgram,
    nodes: &Nodes,
    depth: u64,
    of: ClassId,
    address: u64,
    run: &mut Running,
) -> Result<Next, Halt>
    ensures { (k : Rest) → Coherent k → Leads program.now nodes.now depth k result run.new (behind_initialiser program.now nodes.now depth of k.nothing (Thrown address run.old.units run.old.state)) }
{
    set_readiness(alloc, run, of, Readiness::Failed);
    as_error(alloc, program, address, run)?;
    Ok(Next::Give(Given::Nothing))
}
