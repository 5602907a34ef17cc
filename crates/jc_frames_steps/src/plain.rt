//! Instructions that touch their frame alone.
ghost use Rattle.jc_frames_types.specs.States.{Does};
ghost use Rattle.jc_frames_steps.specs.Rules.{changed_two, int_converted, long_converted, plain_typed};

use crate::Environment;
use crate::jumps::{jump, jump_by, jump_by_two};
use crate::locals::{increment, load, push_constant, store_of};
use crate::takings::{change, change_two};
use jc_class_out::Item;
use jc_frames_types::{Supertypes, TypeState, UnitType, Wanted, discard, duplicate, swap};
use jc_jvm::{IntConversion, LongConversion, Plain};

fn convert_int(types: &Supertypes<'_>, how: IntConversion, state: &mut TypeState<'_>) -> bool
    ensures { Does result (int_converted types.now how state.old) state.new }
{
    match how {
        IntConversion::Widened => change(types, Wanted::Whole, UnitType::Long, state),
        IntConversion::Negated
        | IntConversion::ToByte
        | IntConversion::ToChar
        | IntConversion::ToShort => change(types, Wanted::Whole, UnitType::Integer, state),
    }
}

fn convert_long(types: &Supertypes<'_>, how: LongConversion, state: &mut TypeState<'_>) -> bool
    ensures { Does result (long_converted types.now how state.old) state.new }
{
    match how {
        LongConversion::LongNegated => change(types, Wanted::LongPair, UnitType::Long, state),
        LongConversion::Narrowed => change(types, Wanted::LongPair, UnitType::Integer, state),
    }
}

/// Two ints give way to one.
fn calculate_int(types: &Supertypes<'_>, state: &mut TypeState<'_>) -> bool
    ensures { Does result (changed_two types.now Wanted.Whole Wanted.Whole Item.Integer state.old) state.new }
{
    change_two(
        types,
        Wanted::Whole,
        Wanted::Whole,
        UnitType::Integer,
        state,
    )
}

/// Two longs give way to one.
fn calculate_long(types: &Supertypes<'_>, state: &mut TypeState<'_>) -> bool
    ensures { Does result (changed_two types.now Wanted.LongPair Wanted.LongPair Item.Long state.old) state.new }
{
    change_two(
        types,
        Wanted::LongPair,
        Wanted::LongPair,
        UnitType::Long,
        state,
    )
}

/// What an instruction that touches its frame alone does to the type state.
pub fn step_plain(e: &Environment<'_>, plain: Plain, state: &mut TypeState<'_>) -> bool
    ensures { Does result (plain_typed e.now plain state.old) state.new }
{
    match plain {
        Plain::Push(value) => push_constant(value, state),
        Plain::Load { sort, local } => load(sort, local, state),
        Plain::Store { sort, local } => store_of(e.types(), sort, local, state),
        Plain::Increment { local, .. } => increment(local, state),
        Plain::Discard(width) => discard(width, state),
        Plain::Swap => swap(state),
        Plain::Duplicate { copied, under } => duplicate(copied, under, state),
        Plain::CalculateInt(_) | Plain::ShiftInt(_) | Plain::DivideInt(_) => {
            calculate_int(e.types(), state)
        }
        Plain::CalculateLong(_) | Plain::DivideLong(_) => calculate_long(e.types(), state),
        Plain::ShiftLong(_) => change_two(
            e.types(),
            Wanted::Whole,
            Wanted::LongPair,
            UnitType::Long,
            state,
        ),
        Plain::ConvertInt(how) => convert_int(e.types(), how, state),
        Plain::ConvertLong(how) => convert_long(e.types(), how, state),
        Plain::CompareLongs => change_two(
            e.types(),
            Wanted::LongPair,
            Wanted::LongPair,
            UnitType::Integer,
            state,
        ),
        Plain::JumpByInt { to, .. } => jump_by(e, Wanted::Whole, to, state),
        Plain::JumpByInts { to, .. } => jump_by_two(e, Wanted::Whole, to, state),
        Plain::JumpByReferences { to, .. } => jump_by_two(e, Wanted::Reference, to, state),
        Plain::JumpByNull { to, .. } => jump_by(e, Wanted::Reference, to, state),
        Plain::Jump { to } => jump(e, to, state),
    }
}
