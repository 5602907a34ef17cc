//! What an instruction that runs no other code does to the machine.
ghost use Rattle.std.specs.Prelude.{◌≡◌, ◌∷◌, IfOk, OnErr, IsTrue};
ghost use Rattle.jc_jvm.specs.Calls.{Moves, Quiet, null_pointer as null_pointer_step};
ghost use Rattle.jc_jvm.specs.Table.{throws_top};
ghost use Rattle.jc_stepping.specs.Makes.{throw_makes};
ghost use Rattle.jc_waiting.specs.Memory.{fault_makes};
ghost use Rattle.jc_waiting.specs.Onwards.{state_of};

use crate::Did;
use jc_heap::Classes;
use jc_jvm::{Ending, Fault, Frame, Value, Waiting, World};
use jc_plain::throw_in;
use jc_rules::WantOfMemory;
use jc_waiting::{Onward, Stack, settle, throw_object};
use std::alloc::Global;

/// The table allows nothing.
pub fn stuck() -> Did
    ensures { result ≡ Did.Moves (Onward.Ends Ending.Stuck) }
{
    Did::Moves(Onward::Ends(Ending::Stuck))
}

/// A reference was null where an object is wanted.
pub fn null_pointer(
    alloc: Global,
    classes: &Classes,
    now: &mut Frame,
    world: &mut World,
    waiting: &mut Stack<Waiting>,
) -> Result<Onward, WantOfMemory>
    ensures step { IfOk result (λ on. null_pointer_step classes.now world.old now.old waiting.old ≡ Moves Quiet (state_of on world.new now.new waiting.new)) }
    ensures memory { OnErr result (IsTrue (fault_makes classes.now Fault.NullPointer)) }
{
    let act = throw_in(Fault::NullPointer, now);
    settle(alloc, classes, act, now, world, waiting)
}

/// athrow.
pub fn throw_top(
    alloc: Global,
    classes: &Classes,
    now: &mut Frame,
    world: &mut World,
    waiting: &mut Stack<Waiting>,
) -> Result<Onward, WantOfMemory>
    ensures step { IfOk result (λ on. throws_top classes.now world.old now.old waiting.old now.old.stack.values ≡ Moves Quiet (state_of on world.new now.new waiting.new)) }
    ensures memory { OnErr result (IsTrue (throw_makes classes.now world.old now.old waiting.old now.old.stack.values)) }
{
    match now.stack.pop() {
        Some(Value::Address(address)) => {
            throw_object(alloc, classes, address, now, world, waiting)
        }
        Some(Value::NullValue) => null_pointer(alloc, classes, now, world, waiting),
        _ => Ok(Onward::Ends(Ending::Stuck)),
    }
}
