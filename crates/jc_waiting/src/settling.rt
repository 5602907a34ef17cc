//! How a machine goes on after an instruction.
ghost use Rattle.std.specs.Prelude.{◌≡◌, IfOk, OnErr, IsTrue};
ghost use Rattle.jc_jvm.specs.Calls.{settled, returned_to};
ghost use Rattle.jc_jvm.specs.Frames.{pushes};
ghost use Rattle.jc_plain.specs.Acted.{acted};
ghost use Rattle.jc_waiting.specs.Memory.{act_makes};
ghost use Rattle.jc_waiting.specs.Onwards.{state_of};

use crate::{Onward, Stack, throw_fault};
use jc_heap::Classes;
use jc_jvm::{Ending, Frame, Value, Waiting, World};
use jc_plain::Act;
use jc_rules::WantOfMemory;
use std::alloc::Global;

/// How the machine goes on after what an instruction did to its frame.
pub fn settle(
    alloc: Global,
    classes: &Classes,
    act: Act,
    now: &mut Frame,
    world: &mut World,
    waiting: &mut Stack<Waiting>,
) -> Result<Onward, WantOfMemory>
    ensures state { IfOk result (λ on. settled classes.now world.old waiting.old (acted act now.old) ≡ state_of on world.new now.new waiting.new) }
    ensures memory { OnErr result (IsTrue (act_makes classes.now (acted act now.old))) }
{
    match act {
        Act::Goes => Ok(Onward::Runs),
        Act::Throws(fault) => throw_fault(alloc, classes, fault, now, world, waiting),
        Act::Fails => Ok(Onward::Ends(Ending::Stuck)),
    }
}

/// The frame goes on at `next` with a value on its stack, where there is room for it.
pub fn go_on_with(
    classes: &Classes,
    value: Value,
    next: u32,
    now: &mut Frame,
    world: &World,
    waiting: &Stack<Waiting>,
) -> Onward
    ensures { settled classes.now world.now waiting.now (pushes next now.old now.old.stack.values value) ≡ state_of result world.now now.new waiting.now }
{
    if now.stack.push(value) {
        now.at = next;
        Onward::Runs
    } else {
        Onward::Ends(Ending::Stuck)
    }
}

/// The frame goes on behind its call, at `next`, with the value on its stack, if there is one.
pub fn return_to(
    classes: &Classes,
    value: Option<Value>,
    next: Option<u32>,
    now: &mut Frame,
    world: &World,
    waiting: &Stack<Waiting>,
) -> Onward
    ensures { returned_to classes.now world.now now.old waiting.now value next ≡ state_of result world.now now.new waiting.now }
{
    match (value, next) {
        (Some(value), Some(next)) => go_on_with(classes, value, next, now, world, waiting),
        (None, Some(next)) => {
            now.at = next;
            Onward::Runs
        }
        (_, None) => Onward::Ends(Ending::Stuck),
    }
}
