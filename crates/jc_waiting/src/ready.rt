//! Whether a class has to be initialised first (JVMS 5.5).
ghost use Rattle.std.specs.Prelude.{◌≡◌, ◌∷◌, IfOk, IsTrue, OnErr, false, length};
ghost use Rattle.jc_jvm.specs.Calls.{Moves, Quiet, Step};
ghost use Rattle.jc_jvm.specs.Table.{first_initialised};
ghost use Rattle.jc_jvm.specs.Worlds.{state_of_class};
ghost use Rattle.jc_jvm.specs.Initialising.{initialised};
ghost use Rattle.jc_waiting.specs.Memory.{first_makes, initialised_makes};
ghost use Rattle.jc_waiting.specs.Onwards.{state_of};
ghost use Rattle.jc_waiting.specs.Readying.{is_open as open_by};

use crate::alone::initialise_alone;
use crate::{Onward, Stack, initialise, throw_fault};
use jc_heap::Classes;
use jc_jvm::{ClassState, Ending, Fault, Frame, Waiting, World};
use jc_rules::WantOfMemory;
use std::alloc::Global;

/// Whether a class needs no initialisation before an instruction acts on it.
#[inline(always)]
pub fn is_open(world: &World, class: u64) -> bool
    ensures { result ≡ open_by (state_of_class world.now class) }
{
    match world.states.get(class as usize) {
        Some(ClassState::Ready) | Some(ClassState::InProgress) => true,
        _ => false,
    }
}

// The same of an untouched class where there is no memory to let the frame wait.
#[tactic(auto, using(crate::proofs::Readied::alone_told))]
fn initialise_below(
    classes: &Classes,
    class: u64,
    now: &Frame,
    world: &mut World,
    waiting: &Stack<Waiting>,
) -> Result<Onward, WantOfMemory>
    ensures state { IfOk result (λ on. initialised classes.now class world.old (Waiting.Caller now.now ∷ waiting.now) ≡ state_of on world.new now.now waiting.now) }
    ensures memory { OnErr result (IsTrue (initialised_makes classes.now (length classes.now) class world.old false)) }
{
    if initialise_alone(classes, classes.models().len(), class, world)? {
        Ok(Onward::Runs)
    } else {
        Ok(Onward::Ends(Ending::Stuck))
    }
}

/// A class is initialised before an instruction of the frame that runs acts on it. The frame repeats its instruction then.
pub fn initialise_first(
    alloc: Global,
    classes: &Classes,
    class: u64,
    now: &mut Frame,
    world: &mut World,
    waiting: &mut Stack<Waiting>,
) -> Result<Onward, WantOfMemory>
    requires { open_by (state_of_class world.old class) ≡ false }
    ensures state { IfOk result (λ on. (step : Step) → first_initialised classes.now world.old now.old waiting.old class step ≡ Moves Quiet (state_of on world.new now.new waiting.new)) }
    ensures memory { OnErr result (IsTrue (first_makes classes.now world.old class)) }
{
    match world.states.get(class as usize) {
        Some(ClassState::Failed) => throw_fault(
            alloc,
            classes,
            Fault::NoClassDefFound,
            now,
            world,
            waiting,
        ),
        Some(ClassState::Untouched) => {
            if waiting.keep(alloc, now) {
                initialise(alloc, classes, class, now, world, waiting)
            } else {
                initialise_below(classes, class, now, world, waiting)
            }
        }
        Some(ClassState::Ready) | Some(ClassState::InProgress) => Ok(Onward::Runs),
        None => Ok(Onward::Ends(Ending::Stuck)),
    }
}
