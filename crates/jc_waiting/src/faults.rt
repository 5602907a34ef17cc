//! The exceptions that the machine makes.
ghost use Rattle.std.specs.Prelude.{◌≡◌};
ghost use Rattle.jc_jvm.specs.Thrown.{fault_class as class_of_fault, is_error as error_by, is_throwable as throwable_by};
ghost use Rattle.jc_jvm.specs.Worlds.{with_state};

use jc_heap::Classes;
use jc_jvm::{ClassState, Fault, World};

/// The class of an exception that the machine makes, where the classes have it.
pub fn fault_class(classes: &Classes, fault: Fault) -> Option<u64>
    ensures { result ≡ class_of_fault classes.now fault }
{
    classes.fault_class(fault)
}

/// Whether a class is below Error.
pub fn is_error(classes: &Classes, class: u64) -> bool
    ensures { result ≡ error_by classes.now class }
{
    match classes.error() {
        Some(error) => classes.is_class_below(class, error),
        None => false,
    }
}

/// Whether a class is below Throwable.
pub fn is_throwable(classes: &Classes, class: u64) -> bool
    ensures { result ≡ throwable_by classes.now class }
{
    match classes.throwable() {
        Some(throwable) => classes.is_class_below(class, throwable),
        None => false,
    }
}

/// A class comes into a state.
pub fn set_state(world: &mut World, state: ClassState, class: u64)
    ensures { world.new ≡ with_state state class world.old }
{
    world.states.set(class as usize, state);
}
