//! The instructions that touch their frame alone.
ghost use Rattle.std.specs.Prelude.{◌≡◌};
ghost use Rattle.jc_jvm.specs.Table.{plain_act};
ghost use Rattle.jc_plain.specs.Acted.{acted};

use crate::calculations::{
    calculate_int, calculate_long, compare_longs, convert_int, convert_long, divide_int,
    divide_long, shift_int, shift_long,
};
use crate::jumps::{jump_by_int, jump_by_ints, jump_by_null, jump_by_references};
use crate::locals::{increment, load, store};
use crate::takings::{discard, duplicate, swap};
use crate::{Act, go_to, push};
use jc_jvm::{Frame, Plain};

/// What an instruction does that touches its frame alone; `next` is the place behind it.
#[inline(always)]
pub fn act_plain(plain: Plain, next: u32, now: &mut Frame) -> Act
    ensures { plain_act plain next now.old ≡ acted result now.new }
{
    match plain {
        Plain::Push(value) => push(next, now, value),
        Plain::Load { sort, local } => load(sort, local, next, now),
        Plain::Store { sort, local } => store(sort, local, next, now),
        Plain::Increment { local, by } => increment(local, by, next, now),
        Plain::Discard(width) => discard(width, next, now),
        Plain::Swap => swap(next, now),
        Plain::Duplicate { copied, under } => duplicate(copied, under, next, now),
        Plain::CalculateInt(how) => calculate_int(how, next, now),
        Plain::CalculateLong(how) => calculate_long(how, next, now),
        Plain::ShiftInt(how) => shift_int(how, next, now),
        Plain::ShiftLong(how) => shift_long(how, next, now),
        Plain::DivideInt(how) => divide_int(how, next, now),
        Plain::DivideLong(how) => divide_long(how, next, now),
        Plain::ConvertInt(how) => convert_int(how, next, now),
        Plain::ConvertLong(how) => convert_long(how, next, now),
        Plain::CompareLongs => compare_longs(next, now),
        Plain::JumpByInt { test, to } => jump_by_int(test, to, next, now),
        Plain::JumpByInts { test, to } => jump_by_ints(test, to, next, now),
        Plain::JumpByReferences { other, to } => jump_by_references(other, to, next, now),
        Plain::JumpByNull { other, to } => jump_by_null(other, to, next, now),
        Plain::Jump { to } => go_to(to, now),
    }
}
