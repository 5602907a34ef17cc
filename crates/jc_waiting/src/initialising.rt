//! The initialisation of classes (JVMS 5.5).
ghost use Rattle.std.specs.Prelude.{◌≡◌, ◌∷◌, [], IfOk, IfNone, IsTrue, OnErr, is_some, length, false};
ghost use Rattle.jc_jvm.specs.Classes.{class_has_flag};
ghost use Rattle.jc_jvm.specs.Frames.{frame_of};
ghost use Rattle.jc_jvm.specs.Initialising.{initialiser_begins, resumed, first_super as super_first, initialised_on, initialised};
ghost use Rattle.jc_waiting.specs.Memory.{initialised_makes, resumed_makes};
ghost use Rattle.jc_waiting.specs.Onwards.{state_of, state_resumed, first_by_state, first_of};

use crate::alone::initialise_alone;
use crate::{Onward, Stack, set_state, throw_fault_among};
use jc_calls::{code_of, find_initialiser, frame_for};
use jc_class_out::ClassModel;
use jc_heap::{Classes, has_flag};
use jc_jvm::{ClassState, Ending, Fault, Frame, Waiting, World};
use jc_rules::WantOfMemory;
use std::alloc::Global;

#[tactic(auto, using(crate::proofs::Readied::begin_rules))]
fn begin(
    alloc: Global,
    classes: &Classes,
    class: u64,
    method: u64,
    now: &mut Frame,
    world: &World,
    waiting: &mut Stack<Waiting>,
) -> Result<Onward, WantOfMemory>
    ensures state { IfOk result (λ on. initialiser_begins classes.now world.now class waiting.old (frame_of classes.now (class, method) []) ≡ state_of on world.now now.new waiting.new) }
    ensures memory { OnErr result (IsTrue (is_some (frame_of classes.now (class, method) []))) }
{
    let Some(_code) = code_of(classes.models(), class, method) else {
        return Ok(Onward::Ends(Ending::Stuck));
    };
    match frame_for(alloc, classes.models(), class, method, &[])? {
        Some(frame) => {
            waiting.push(Waiting::Initialising(class))?;
            *now = frame;
            Ok(Onward::Runs)
        }
        None => Ok(Onward::Ends(Ending::Stuck)),
    }
}

// Of a class whose superclass is done the initialiser begins, if it has one.
fn resume_class(
    alloc: Global,
    classes: &Classes,
    class: u64,
    now: &mut Frame,
    world: &mut World,
    waiting: &mut Stack<Waiting>,
) -> Result<Option<Onward>, WantOfMemory>
    ensures kept { IfOk result (λ on. IfNone on (waiting.new ≡ waiting.old)) }
    ensures state { IfOk result (λ on. resumed classes.now world.old (Waiting.Prepared class ∷ waiting.old) ≡ state_resumed classes.now on world.new now.new waiting.new) }
    ensures behind { IfOk result (λ on. IfNone on (IsTrue (resumed_makes classes.now waiting.old) → IsTrue (resumed_makes classes.now (Waiting.Prepared class ∷ waiting.old)))) }
    ensures memory { OnErr result (IsTrue (resumed_makes classes.now (Waiting.Prepared class ∷ waiting.old))) }
{
    match find_initialiser(classes.models(), class) {
        Some(method) => {
            let on = begin(alloc, classes, class, method as u64, now, world, waiting)?;
            Ok(Some(on))
        }
        None => {
            set_state(world, ClassState::Ready, class);
            Ok(None)
        }
    }
}

fn resume_nearest(
    alloc: Global,
    classes: &Classes,
    nearest: Waiting,
    now: &mut Frame,
    world: &mut World,
    waiting: &mut Stack<Waiting>,
) -> Result<Option<Onward>, WantOfMemory>
    ensures kept { IfOk result (λ on. IfNone on (waiting.new ≡ waiting.old)) }
    ensures state { IfOk result (λ on. resumed classes.now world.old (nearest ∷ waiting.old) ≡ state_resumed classes.now on world.new now.new waiting.new) }
    ensures behind { IfOk result (λ on. IfNone on (IsTrue (resumed_makes classes.now waiting.old) → IsTrue (resumed_makes classes.now (nearest ∷ waiting.old)))) }
    ensures memory { OnErr result (IsTrue (resumed_makes classes.now (nearest ∷ waiting.old))) }
{
    match nearest {
        Waiting::Caller(frame) => {
            *now = frame;
            Ok(Some(Onward::Runs))
        }
        Waiting::Prepared(class) => resume_class(alloc, classes, class, now, world, waiting),
        Waiting::Initialising(class) => {
            set_state(world, ClassState::Ready, class);
            Ok(None)
        }
    }
}

/// What waits goes on, from the nearest on.
pub fn resume(
    alloc: Global,
    classes: &Classes,
    now: &mut Frame,
    world: &mut World,
    waiting: &mut Stack<Waiting>,
) -> Result<Onward, WantOfMemory>
    ensures state { IfOk result (λ on. resumed classes.now world.old waiting.old ≡ state_of on world.new now.new waiting.new) }
    ensures memory { OnErr result (IsTrue (resumed_makes classes.now waiting.old)) }
{
    while let Some(nearest) = waiting.pop() {
        match resume_nearest(alloc, classes, nearest, now, world, waiting)? {
            Some(on) => return Ok(on),
            None => (),
        }
    }
    Ok(Onward::Ends(Ending::Ended))
}

fn has_class_flag(classes: &[ClassModel], flag: u16, class: u64) -> bool
    ensures { result ≡ class_has_flag classes.now flag class }
{
    match classes.get(class as usize) {
        Some(model) => has_flag(flag, model.flags),
        None => false,
    }
}

fn first_super(classes: &Classes, class: u64) -> Option<u64>
    ensures { result ≡ super_first classes.now class }
{
    if has_class_flag(classes.models(), 512, class) {
        None
    } else {
        classes.superclass(class)
    }
}

/// What has to be done about the superclass before a class.
#[derive(Clone, Copy, Debug)]
pub enum First {
    /// This one has to be initialised.
    Untouched(u64),
    Failed,
    Nothing,
}

fn first_by(before: u64, state: Option<ClassState>) -> First
    ensures { result ≡ first_by_state before state }
{
    match state {
        Some(ClassState::Untouched) => First::Untouched(before),
        Some(ClassState::Failed) => First::Failed,
        Some(ClassState::InProgress) | Some(ClassState::Ready) | None => First::Nothing,
    }
}

/// What has to be done about a class's superclass first.
pub fn first_state(classes: &Classes, class: u64, world: &World) -> First
    ensures { result ≡ first_of world.now (super_first classes.now class) }
{
    match first_super(classes, class) {
        Some(before) => first_by(before, world.states.get(before as usize)),
        None => First::Nothing,
    }
}

// Where there is no memory to keep a class in what waits: its initialisation makes nothing, or memory is wanted.
#[tactic(auto, using(crate::proofs::Readied::alone_told))]
fn initialise_unkept(
    alloc: Global,
    classes: &Classes,
    steps: usize,
    class: u64,
    now: &mut Frame,
    world: &mut World,
    waiting: &mut Stack<Waiting>,
) -> Result<Onward, WantOfMemory>
    ensures state { IfOk result (λ on. initialised_on classes.now steps class world.old waiting.old ≡ state_of on world.new now.new waiting.new) }
    ensures memory { OnErr result (IsTrue (initialised_makes classes.now steps class world.old (resumed_makes classes.now waiting.old))) }
{
    if initialise_alone(classes, steps, class, world)? {
        resume(alloc, classes, now, world, waiting)
    } else {
        Ok(Onward::Ends(Ending::Stuck))
    }
}

/// The initialisation of an untouched class begins; what waits for it waits already.
pub fn initialise(
    alloc: Global,
    classes: &Classes,
    class: u64,
    now: &mut Frame,
    world: &mut World,
    waiting: &mut Stack<Waiting>,
) -> Result<Onward, WantOfMemory>
    ensures state { IfOk result (λ on. initialised classes.now class world.old waiting.old ≡ state_of on world.new now.new waiting.new) }
    ensures memory { OnErr result (IsTrue (initialised_makes classes.now (length classes.now) class world.old (resumed_makes classes.now waiting.old))) }
{
    let steps = classes.models().len();
    let mut here = class;
    for begun in 0..steps {
        match waiting.push(Waiting::Prepared(here)) {
            Ok(()) => set_state(world, ClassState::InProgress, here),
            Err(_) => {
                let left = steps - begun;
                return initialise_unkept(alloc, classes, left, here, now, world, waiting);
            }
        }
        match first_state(classes, here, world) {
            First::Untouched(before) => here = before,
            First::Failed => {
                let fault = Fault::NoClassDefFound;
                return throw_fault_among(alloc, classes, fault, now, world, waiting);
            }
            First::Nothing => return resume(alloc, classes, now, world, waiting),
        }
    }
    Ok(Onward::Ends(Ending::Stuck))
}
