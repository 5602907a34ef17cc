//! Returns.
ghost use Rattle.std.specs.Prelude.{◌≡◌, ◌∷◌, IfOk, IsTrue, OnErr, Some};
ghost use Rattle.jc_jvm.specs.Calls.{Moves, Quiet, behind as behind_call, returned as returned_by};
ghost use Rattle.jc_jvm.specs.Table.{given_back, returns_by};
ghost use Rattle.jc_stepping.specs.Makes.{return_makes};
ghost use Rattle.jc_waiting.specs.Onwards.{state_of};

use jc_calls::give_back;
use jc_jvm::{ClassState, Ending, Frame, Sort, Value, Waiting, World};
use jc_rows::Program;
use jc_rules::WantOfMemory;
use jc_waiting::{Onward, Stack, resume, return_to, set_state};
use std::alloc::Global;

// The place behind a frame's instruction.
fn behind(program: &Program, now: &Frame) -> Option<u32>
    ensures { result ≡ behind_call program.now now.now }
{
    match program.placed(now.class, now.method, now.at) {
        Some(placed) => Some(placed.next),
        None => None,
    }
}

fn return_to_caller(
    program: &Program,
    caller: Frame,
    value: Option<Value>,
    now: &mut Frame,
    world: &World,
    waiting: &Stack<Waiting>,
) -> Onward
    ensures { returned_by program.now world.now (Waiting.Caller caller ∷ waiting.now) value ≡ state_of result world.now now.new waiting.now }
{
    let next = behind(program, &caller);
    *now = caller;
    return_to(program.classes(), value, next, now, world, waiting)
}

fn return_from_initialiser(
    alloc: Global,
    program: &Program,
    class: u64,
    value: Option<Value>,
    now: &mut Frame,
    world: &mut World,
    waiting: &mut Stack<Waiting>,
) -> Result<Onward, WantOfMemory>
    ensures step { IfOk result (λ on. returned_by program.now world.old (Waiting.Initialising class ∷ waiting.old) value ≡ state_of on world.new now.new waiting.new) }
    ensures memory { OnErr result (IsTrue (return_makes program.now (Waiting.Initialising class ∷ waiting.old) (Some value))) }
{
    match value {
        Some(_) => Ok(Onward::Ends(Ending::Stuck)),
        None => {
            set_state(world, ClassState::Ready, class);
            resume(alloc, program.classes(), now, world, waiting)
        }
    }
}

fn return_from(
    alloc: Global,
    program: &Program,
    value: Option<Value>,
    now: &mut Frame,
    world: &mut World,
    waiting: &mut Stack<Waiting>,
) -> Result<Onward, WantOfMemory>
    ensures step { IfOk result (λ on. returned_by program.now world.old waiting.old value ≡ state_of on world.new now.new waiting.new) }
    ensures memory { OnErr result (IsTrue (return_makes program.now waiting.old (Some value))) }
{
    match waiting.pop() {
        Some(Waiting::Caller(caller)) => Ok(return_to_caller(
            program, caller, value, now, world, waiting,
        )),
        Some(Waiting::Prepared(_)) => Ok(Onward::Ends(Ending::Stuck)),
        Some(Waiting::Initialising(class)) => return_from_initialiser(
            alloc, program, class, value, now, world, waiting,
        ),
        None => Ok(Onward::Ends(Ending::Ended)),
    }
}

/// ireturn and its kin, of a value of the sort `wanted`, or of none, from a method whose result has the sort `given`.
pub fn leave(
    alloc: Global,
    program: &Program,
    wanted: Option<Sort>,
    given: Option<Sort>,
    now: &mut Frame,
    world: &mut World,
    waiting: &mut Stack<Waiting>,
) -> Result<Onward, WantOfMemory>
    ensures step { IfOk result (λ on. returns_by program.now world.old waiting.old (given_back wanted given now.old.stack.values) ≡ Moves Quiet (state_of on world.new now.new waiting.new)) }
    ensures memory { OnErr result (IsTrue (return_makes program.now waiting.old (given_back wanted given now.old.stack.values))) }
{
    match give_back(wanted, given, &mut now.stack) {
        Some(value) => return_from(alloc, program, value, now, world, waiting),
        None => Ok(Onward::Ends(Ending::Stuck)),
    }
}
