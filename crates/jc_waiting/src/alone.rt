//! The initialisation of classes that makes nothing (JVMS 5.5): it takes no memory.
ghost use Rattle.std.specs.Prelude.{◌≡◌, Bool, IfOk, IsTrue, None, OnErr, Some};
ghost use Rattle.jc_waiting.specs.Alone.{InitialisedAlone, ended_alone, or_below, refused_alone};
ghost use Rattle.jc_waiting.specs.Memory.{initialised_makes};

use crate::initialising::{First, first_state};
use crate::{fault_class, set_state};
use jc_calls::{code_of, find_initialiser};
use jc_heap::Classes;
use jc_jvm::{ClassState, Fault, World};
use jc_rules::WantOfMemory;

/// The initialiser that begins first, of some classes of which each is the superclass of the one before: the uppermost one's.
#[derive(Clone, Copy, Debug)]
pub enum Uppermost {
    /// No class has one.
    Absent,
    /// It has code, so a frame is made for it.
    Framed,
    /// It has no code, so the table allows nothing.
    Codeless,
}

fn or_below(classes: &Classes, class: u64, below: Uppermost) -> Uppermost
    ensures { result ≡ or_below classes.now class below }
{
    match find_initialiser(classes.models(), class) {
        Some(method) => match code_of(classes.models(), class, method as u64) {
            Some(_) => Uppermost::Framed,
            None => Uppermost::Codeless,
        },
        None => below,
    }
}

// Where nothing has to be done about the last superclass.
fn end(uppermost: Uppermost) -> Result<bool, WantOfMemory>
    ensures done { IfOk result (λ done. ended_alone uppermost ≡ Some done) }
    ensures memory { OnErr result (ended_alone uppermost ≡ None) }
{
    match uppermost {
        Uppermost::Absent => Ok(true),
        Uppermost::Framed => Err(WantOfMemory),
        Uppermost::Codeless => Ok(false),
    }
}

// Where a superclass has failed.
fn refuse(classes: &Classes) -> Result<bool, WantOfMemory>
    ensures done { IfOk result (λ done. refused_alone classes.now ≡ Some done) }
    ensures memory { OnErr result (refused_alone classes.now ≡ None) }
{
    match fault_class(classes, Fault::NoClassDefFound) {
        Some(_) => Err(WantOfMemory),
        None => Ok(false),
    }
}

/// A class that isn't touched yet and its superclasses are ready, over at most so many of them, or false where the table allows nothing.
/// Want of memory where an object or a frame would be made: the classes' states are lost then.
pub fn initialise_alone(
    classes: &Classes,
    steps: usize,
    class: u64,
    world: &mut World,
) -> Result<bool, WantOfMemory>
    ensures ready { IfOk result (λ done. InitialisedAlone classes.now steps class world.old done world.new) }
    ensures memory { OnErr result ((behind : Bool) → IsTrue (initialised_makes classes.now steps class world.old behind)) }
{
    let mut here = class;
    let mut uppermost = Uppermost::Absent;
    for walked in 0..steps {
        set_state(world, ClassState::Ready, here);
        uppermost = or_below(classes, here, uppermost);
        match first_state(classes, here, world) {
            First::Untouched(before) => here = before,
            First::Failed => return refuse(classes),
            First::Nothing => return end(uppermost),
        }
    }
    Ok(false)
}
