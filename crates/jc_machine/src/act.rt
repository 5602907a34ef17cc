//! What the rows of the instruction table do.
ghost use Rattle.std.specs.Prelude.{◌≡◌, ◌%◌, MatchBool, Some, None, if◌then◌else◌};
ghost use Rattle.std.specs.Int.{w32, cast_unsigned};
ghost use Rattle.jc_machine.specs.Table.{loaded, added, constructed, written, returned, act, move_of};

use crate::rows::Row;
use crate::{Active, Ending, Operands, Ran, Stack, Value};

/// What a row did: the frames are as it left them, unless the machine ends.
#[derive(Debug, Drop)]
pub enum Act {
    Went,
    Byte(u8),
    Ends(Ending),
}

/// What a step's answer is to a run.
#[derive(Debug, Drop)]
pub enum Turn {
    Goes,
    Puts(u8),
    Ends(Ran),
}

/// The address of `java/lang/System.out`.
const OUT: u64 = 1;

// A push or its like went on, or there was no room or no operand for it.
fn went(done: bool) -> Act
    ensures { result ≡ (if done then Act.Went else Act.Ends Ending.Stuck) }
{
    if done {
        Act::Went
    } else {
        Act::Ends(Ending::Stuck)
    }
}

fn load_reference(local: Option<Option<Value>>, stack: &mut Operands) -> bool
    ensures { MatchBool result (loaded local stack.old ≡ Some stack.new) (loaded local stack.old ≡ None) }
{
    match local {
        Some(Some(Value::Address(at))) => stack.push(Value::Address(at)),
        Some(Some(Value::NullValue)) => stack.push(Value::NullValue),
        _ => false,
    }
}

fn add(stack: &mut Operands) -> bool
    ensures { MatchBool result (added stack.old stack.old.values ≡ Some stack.new) (added stack.old stack.old.values ≡ None) }
{
    match (stack.pop(), stack.pop()) {
        (Some(Value::Whole(b)), Some(Value::Whole(a))) => {
            stack.push(Value::Whole(a.wrapping_add(b)))
        }
        _ => false,
    }
}

fn construct(stack: &mut Operands) -> bool
    ensures { MatchBool result (constructed stack.old stack.old.values ≡ Some stack.new) (constructed stack.old stack.old.values ≡ None) }
{
    match stack.pop() {
        Some(Value::Address(_)) => true,
        _ => false,
    }
}

fn low_byte(n: i32) -> u8
    ensures { result ≡ cast_unsigned w32 n % 256 }
{
    (n.cast_unsigned() % 256) as u8
}

fn write_byte(now: &mut Active, callers: &Stack<Active>) -> Act
    ensures { written now.old callers.now now.old.stack.values ≡ move_of result now.new callers.now }
{
    match (now.stack.pop(), now.stack.pop()) {
        (Some(Value::Whole(n)), Some(Value::Address(OUT))) => Act::Byte(low_byte(n)),
        _ => Act::Ends(Ending::Stuck),
    }
}

fn leave(now: &mut Active, callers: &mut Stack<Active>) -> Act
    ensures { returned callers.old ≡ move_of result now.new callers.new }
{
    match callers.pop() {
        Some(caller) => {
            *now = caller;
            Act::Went
        }
        None => Act::Ends(Ending::Ended),
    }
}

/// One row in a frame, with the frames that wait for it. The frame's place is already the one behind the row's instruction.
pub fn perform(row: Row, now: &mut Active, callers: &mut Stack<Active>) -> Act
    ensures { act row now.old callers.old ≡ move_of result now.new callers.new }
{
    match row {
        Row::Push(n) => went(now.stack.push(Value::Whole(n))),
        Row::LoadReference(local) => {
            let local = now.locals.get(local as usize).copied();
            went(load_reference(local, &mut now.stack))
        }
        Row::AddInt => went(add(&mut now.stack)),
        Row::GetOut => went(now.stack.push(Value::Address(OUT))),
        Row::WriteByte => write_byte(now, callers),
        Row::Construct => went(construct(&mut now.stack)),
        Row::Return => leave(now, callers),
    }
}
