//! What an instruction did to its frame.
ghost use Rattle.std.specs.Prelude.{◌≡◌};
ghost use Rattle.jc_jvm.specs.Frames.{Goes, throws, pushes};
ghost use Rattle.jc_plain.specs.Acted.{acted};

use jc_jvm::{Fault, Frame, Value};

/// What an instruction did to its frame.
#[derive(Clone, Copy, Debug)]
pub enum Act {
    /// The frame goes on at its place.
    Goes,
    /// The machine makes this exception, which comes up at the frame's place. The place is still the instruction's, and the stack is empty.
    Throws(Fault),
    /// The table allows nothing.
    Fails,
}

/// The exception comes up in the frame.
#[inline(always)]
pub fn throw_in(fault: Fault, now: &mut Frame) -> Act
    ensures { throws fault now.old ≡ acted result now.new }
{
    now.stack.clear();
    Act::Throws(fault)
}

/// The frame goes on at this place.
#[inline(always)]
pub fn go_to(next: u32, now: &mut Frame) -> Act
    ensures { Goes (record now.old { at = next }) ≡ acted result now.new }
{
    now.at = next;
    Act::Goes
}

/// A value onto the stack, where there is room for it.
#[inline(always)]
pub fn push(next: u32, now: &mut Frame, value: Value) -> Act
    ensures { pushes next now.old now.old.stack.values value ≡ acted result now.new }
{
    if now.stack.push(value) {
        go_to(next, now)
    } else {
        Act::Fails
    }
}
