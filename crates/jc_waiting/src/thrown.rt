//! Exceptions that come up (JVMS 2.10).
ghost use Rattle.std.specs.Prelude.{◌≡◌, ◌∷◌, IfOk, IsTrue, OnErr, slice_get};
ghost use Rattle.jc_jvm.specs.Thrown.{caught, unwound, class_of_cell, thrown as thrown_object, fault_among, fault_thrown};
ghost use Rattle.jc_waiting.specs.Memory.{fault_makes, thrown_makes, unwound_makes};
ghost use Rattle.jc_waiting.specs.Onwards.{state_of, state_after};
ghost use Rattle.jc_waiting.specs.Passing.{GoesOnMaking};

use crate::onward::Passed;
use crate::{Onward, Stack, fault_class, is_error, is_throwable, set_state};
use jc_calls::handler_for;
use jc_heap::{Classes, make_object};
use jc_jvm::{Cell, ClassState, Ending, Fault, Frame, Value, Waiting, World};
use jc_rules::WantOfMemory;
use std::alloc::Global;

// At the handler the exception alone stands on the stack, where there is room for it.
fn catch_in(
    to: u32,
    address: u64,
    now: &mut Frame,
    world: &World,
    waiting: &Stack<Waiting>,
) -> Onward
    ensures { caught address to now.old world.now waiting.now ≡ state_of result world.now now.new waiting.now }
{
    now.stack.clear();
    if now.stack.push(Value::Address(address)) {
        now.at = to;
        Onward::Runs
    } else {
        Onward::Ends(Ending::Stuck)
    }
}

#[tactic(auto, using(crate::proofs::Making::passed_rules))]
fn pass_frame(
    classes: &Classes,
    frame: Frame,
    now: &mut Frame,
    world: &World,
    waiting: &Stack<Waiting>,
    thrown: u64,
    address: u64,
) -> Passed
    ensures state { unwound classes.now (Waiting.Caller frame ∷ waiting.now) world.now thrown address ≡ state_after classes.now result world.now now.new waiting.now }
    ensures makes { GoesOnMaking classes.now (unwound_makes classes.now (Waiting.Caller frame ∷ waiting.now) thrown) waiting.now result }
{
    match handler_for(classes, thrown, &frame) {
        Some(to) => {
            *now = frame;
            Passed::Left(catch_in(to, address, now, world, waiting))
        }
        None => Passed::Goes { thrown, address },
    }
}

#[tactic(auto, using(crate::proofs::Making::passed_rules))]
fn pass_initialiser(
    alloc: Global,
    classes: &Classes,
    class: u64,
    now: &Frame,
    world: &mut World,
    waiting: &Stack<Waiting>,
    thrown: u64,
    address: u64,
) -> Result<Passed, WantOfMemory>
    ensures state { IfOk result (λ passed. unwound classes.now (Waiting.Initialising class ∷ waiting.now) world.old thrown address ≡ state_after classes.now passed world.new now.now waiting.now) }
    ensures makes { IfOk result (GoesOnMaking classes.now (unwound_makes classes.now (Waiting.Initialising class ∷ waiting.now) thrown) waiting.now) }
    ensures memory { OnErr result (IsTrue (unwound_makes classes.now (Waiting.Initialising class ∷ waiting.now) thrown)) }
{
    set_state(world, ClassState::Failed, class);
    if is_error(classes, thrown) {
        return Ok(Passed::Goes { thrown, address });
    }
    match fault_class(classes, Fault::ExceptionInInitializer) {
        Some(wrapper) => {
            let address = make_object(alloc, classes, wrapper, world)?;
            Ok(Passed::Goes {
                thrown: wrapper,
                address,
            })
        }
        None => Ok(Passed::Left(Onward::Ends(Ending::Stuck))),
    }
}

#[tactic(auto, using(crate::proofs::Making::passed_rules))]
fn pass(
    alloc: Global,
    classes: &Classes,
    nearest: Waiting,
    now: &mut Frame,
    world: &mut World,
    waiting: &Stack<Waiting>,
    thrown: u64,
    address: u64,
) -> Result<Passed, WantOfMemory>
    ensures state { IfOk result (λ passed. unwound classes.now (nearest ∷ waiting.now) world.old thrown address ≡ state_after classes.now passed world.new now.new waiting.now) }
    ensures makes { IfOk result (GoesOnMaking classes.now (unwound_makes classes.now (nearest ∷ waiting.now) thrown) waiting.now) }
    ensures memory { OnErr result (IsTrue (unwound_makes classes.now (nearest ∷ waiting.now) thrown)) }
{
    match nearest {
        Waiting::Caller(frame) => Ok(pass_frame(
            classes, frame, now, world, waiting, thrown, address,
        )),
        Waiting::Prepared(class) => {
            set_state(world, ClassState::Failed, class);
            Ok(Passed::Goes { thrown, address })
        }
        Waiting::Initialising(class) => {
            pass_initialiser(alloc, classes, class, now, world, waiting, thrown, address)
        }
    }
}

/// An exception, by its class and address, leaves what waits, from the nearest on, up to a frame that handles it, which runs then.
pub fn unwind(
    alloc: Global,
    classes: &Classes,
    now: &mut Frame,
    world: &mut World,
    waiting: &mut Stack<Waiting>,
    thrown: u64,
    address: u64,
) -> Result<Onward, WantOfMemory>
    ensures state { IfOk result (λ on. unwound classes.now waiting.old world.old thrown address ≡ state_of on world.new now.new waiting.new) }
    ensures memory { OnErr result (IsTrue (unwound_makes classes.now waiting.old thrown)) }
{
    let mut thrown = thrown;
    let mut address = address;
    while let Some(nearest) = waiting.pop() {
        match pass(
            alloc, classes, nearest, now, world, waiting, thrown, address,
        )? {
            Passed::Left(on) => return Ok(on),
            Passed::Goes {
                thrown: next,
                address: at,
            } => {
                thrown = next;
                address = at;
            }
        }
    }
    Ok(Onward::Ends(Ending::Threw(thrown)))
}

// The same, where it comes up in the frame that runs.
fn unwind_from(
    alloc: Global,
    classes: &Classes,
    now: &mut Frame,
    world: &mut World,
    waiting: &mut Stack<Waiting>,
    thrown: u64,
    address: u64,
) -> Result<Onward, WantOfMemory>
    ensures state { IfOk result (λ on. unwound classes.now (Waiting.Caller now.old ∷ waiting.old) world.old thrown address ≡ state_of on world.new now.new waiting.new) }
    ensures memory { OnErr result (IsTrue (unwound_makes classes.now (Waiting.Caller now.old ∷ waiting.old) thrown)) }
{
    match handler_for(classes, thrown, now) {
        Some(to) => Ok(catch_in(to, address, now, world, waiting)),
        None => unwind(alloc, classes, now, world, waiting, thrown, address),
    }
}

fn class_at(world: &World, address: u64) -> Option<u64>
    ensures { result ≡ class_of_cell (slice_get world.now.heap address) }
{
    match world.heap.get(address) {
        Some(Cell::Instance { class, .. }) => Some(*class),
        _ => None,
    }
}

/// athrow: the object at this address is thrown in the frame that runs.
pub fn throw_object(
    alloc: Global,
    classes: &Classes,
    address: u64,
    now: &mut Frame,
    world: &mut World,
    waiting: &mut Stack<Waiting>,
) -> Result<Onward, WantOfMemory>
    ensures state { IfOk result (λ on. thrown_object classes.now world.old now.old waiting.old address ≡ state_of on world.new now.new waiting.new) }
    ensures memory { OnErr result (IsTrue (thrown_makes classes.now world.old now.old waiting.old address)) }
{
    match class_at(world, address) {
        Some(class) => {
            if is_throwable(classes, class) {
                unwind_from(alloc, classes, now, world, waiting, class, address)
            } else {
                Ok(Onward::Ends(Ending::Stuck))
            }
        }
        None => Ok(Onward::Ends(Ending::Stuck)),
    }
}

/// The machine makes an exception, with no constructor run, and throws it in what waits.
pub fn throw_fault_among(
    alloc: Global,
    classes: &Classes,
    fault: Fault,
    now: &mut Frame,
    world: &mut World,
    waiting: &mut Stack<Waiting>,
) -> Result<Onward, WantOfMemory>
    ensures state { IfOk result (λ on. fault_among classes.now world.old waiting.old fault ≡ state_of on world.new now.new waiting.new) }
    ensures memory { OnErr result (IsTrue (fault_makes classes.now fault)) }
{
    match fault_class(classes, fault) {
        Some(class) => {
            let address = make_object(alloc, classes, class, world)?;
            unwind(alloc, classes, now, world, waiting, class, address)
        }
        None => Ok(Onward::Ends(Ending::Stuck)),
    }
}

/// The machine makes an exception, with no constructor run, and throws it in the frame that runs.
pub fn throw_fault(
    alloc: Global,
    classes: &Classes,
    fault: Fault,
    now: &mut Frame,
    world: &mut World,
    waiting: &mut Stack<Waiting>,
) -> Result<Onward, WantOfMemory>
    ensures state { IfOk result (λ on. fault_thrown classes.now world.old now.old waiting.old fault ≡ state_of on world.new now.new waiting.new) }
    ensures memory { OnErr result (IsTrue (fault_makes classes.now fault)) }
{
    match fault_class(classes, fault) {
        Some(class) => {
            let address = make_object(alloc, classes, class, world)?;
            unwind_from(alloc, classes, now, world, waiting, class, address)
        }
        None => Ok(Onward::Ends(Ending::Stuck)),
    }
}
