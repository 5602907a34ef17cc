//! What instructions do to the stack of a type state (JVMS 4.10.1.4, 4.10.1.9).
ghost use Rattle.std.specs.Prelude.{◌≡◌, ◌||◌, ◌&&◌, MatchOption, Some, None};
ghost use Rattle.jc_frames_types.specs.Items.{item_of, is_assignable as assignable, is_one_unit};
ghost use Rattle.jc_frames_types.specs.States.{Does, pushed, with_stack, taken, taken_as as taken_by, is_wanted as is_wanted_by, is_long_pair, beneath_long, with_rest, one_unit, two_units, units_taken, popped, exchanged, put_on, duplicated};
ghost use Rattle.jc_frames_types.specs.Taken.{units_in};

use crate::units::{has_one_unit, is_array, is_assignable, is_byte_array, is_reference};
use crate::{Supertypes, TypeState, UnitType, Wanted};
use jc_class_out::Item;
use jc_jvm::Width;

static OBJECT: [u16; 16] = [
    106, 97, 118, 97, 47, 108, 97, 110, 103, 47, 79, 98, 106, 101, 99, 116,
];

static THROWABLE: [u16; 19] = [
    106, 97, 118, 97, 47, 108, 97, 110, 103, 47, 84, 104, 114, 111, 119, 97, 98, 108, 101,
];

static INTS: [u16; 2] = [91, 73];

static LONGS: [u16; 2] = [91, 74];

static CHARS: [u16; 2] = [91, 67];

static SHORTS: [u16; 2] = [91, 83];

static OBJECTS: [u16; 19] = [
    91, 76, 106, 97, 118, 97, 47, 108, 97, 110, 103, 47, 79, 98, 106, 101, 99, 116, 59,
];

/// Whether a type may stand where that one is wanted.
fn is_object_of(types: &Supertypes<'_>, unit: UnitType<'_>, name: &[u16]) -> bool
    ensures { result ≡ assignable types.now (item_of unit.entry) (Item.Object name.now) }
{
    is_assignable(types, unit, UnitType::Object(name))
}

fn is_wanted(types: &Supertypes<'_>, wanted: Wanted, unit: UnitType<'_>) -> bool
    ensures { result ≡ is_wanted_by types.now wanted (item_of unit.entry) }
{
    match wanted {
        Wanted::Whole => is_assignable(types, unit, UnitType::Integer),
        Wanted::LongPair => false,
        Wanted::OneWord => has_one_unit(unit),
        Wanted::Reference => is_reference(unit),
        Wanted::AnyArray => is_array(unit),
        Wanted::ByteArray => is_byte_array(unit),
        Wanted::IntArray => is_object_of(types, unit, INTS.as_slice()),
        Wanted::LongArray => is_object_of(types, unit, LONGS.as_slice()),
        Wanted::CharArray => is_object_of(types, unit, CHARS.as_slice()),
        Wanted::ShortArray => is_object_of(types, unit, SHORTS.as_slice()),
        Wanted::ObjectArray => is_object_of(types, unit, OBJECTS.as_slice()),
        Wanted::AnyObject => is_object_of(types, unit, OBJECT.as_slice()),
        Wanted::AnyThrowable => is_object_of(types, unit, THROWABLE.as_slice()),
    }
}

/// Puts a value on top, and tells whether there was room for it.
pub fn push<'a>(state: &mut TypeState<'a>, unit: UnitType<'a>) -> bool
    ensures { Does result (pushed (item_of unit.entry) state.old) state.new }
{
    match unit {
        UnitType::Long => state.push_unit(unit) && state.push_unit(UnitType::Top),
        _ => state.push_unit(unit),
    }
}

fn are_long(upper: UnitType<'_>, lower: UnitType<'_>) -> bool
    ensures { result ≡ is_long_pair (item_of upper.entry) (item_of lower.entry) }
{
    matches!((upper, lower), (UnitType::Top, UnitType::Long))
}

fn take_long(state: &mut TypeState<'_>) -> bool
    ensures { Does result (with_rest (beneath_long state.old.stack) state.old) state.new }
{
    match (state.pop_unit(), state.pop_unit()) {
        (Some(upper), Some(lower)) => are_long(upper, lower),
        _ => false,
    }
}

/// Takes what is wanted from the stack, and tells whether it was there.
pub fn take(types: &Supertypes<'_>, wanted: Wanted, state: &mut TypeState<'_>) -> bool
    ensures { Does result (taken types.now wanted state.old) state.new }
{
    match wanted {
        Wanted::LongPair => take_long(state),
        _ => match state.pop_unit() {
            Some(unit) => is_wanted(types, wanted, unit),
            None => false,
        },
    }
}

/// Takes a value that may stand where this type is wanted, and tells whether there was one.
pub fn take_as(types: &Supertypes<'_>, unit: UnitType<'_>, state: &mut TypeState<'_>) -> bool
    ensures { Does result (taken_by types.now (item_of unit.entry) state.old) state.new }
{
    match unit {
        UnitType::Long => take_long(state),
        _ => match state.pop_unit() {
            Some(top) => is_assignable(types, top, unit),
            None => false,
        },
    }
}

/// Units that were taken from a stack, from the top.
#[derive(Clone, Copy, Debug)]
enum Taken<'a> {
    NoUnits,
    One(UnitType<'a>),
    Two(UnitType<'a>, UnitType<'a>),
}

fn take_one<'a>(state: &mut TypeState<'a>) -> Option<Taken<'a>>
    ensures kept { state.new ≡ with_stack state.new.stack state.old }
    ensures taken { MatchOption result (one_unit state.old.stack ≡ None) (λ t. one_unit state.old.stack ≡ Some (units_in t, state.new.stack)) }
{
    match state.pop_unit() {
        Some(unit) => {
            if has_one_unit(unit) {
                Some(Taken::One(unit))
            } else {
                None
            }
        }
        None => None,
    }
}

fn are_two(upper: UnitType<'_>, lower: UnitType<'_>) -> bool
    ensures { result ≡ (is_long_pair (item_of upper.entry) (item_of lower.entry) || (is_one_unit (item_of upper.entry) && is_one_unit (item_of lower.entry))) }
{
    are_long(upper, lower) || (has_one_unit(upper) && has_one_unit(lower))
}

fn take_two<'a>(state: &mut TypeState<'a>) -> Option<Taken<'a>>
    ensures kept { state.new ≡ with_stack state.new.stack state.old }
    ensures taken { MatchOption result (two_units state.old.stack ≡ None) (λ t. two_units state.old.stack ≡ Some (units_in t, state.new.stack)) }
{
    match (state.pop_unit(), state.pop_unit()) {
        (Some(upper), Some(lower)) => {
            if are_two(upper, lower) {
                Some(Taken::Two(upper, lower))
            } else {
                None
            }
        }
        _ => None,
    }
}

fn take_units<'a>(width: Width, state: &mut TypeState<'a>) -> Option<Taken<'a>>
    ensures kept { state.new ≡ with_stack state.new.stack state.old }
    ensures taken { MatchOption result (units_taken width state.old.stack ≡ None) (λ t. units_taken width state.old.stack ≡ Some (units_in t, state.new.stack)) }
{
    match width {
        Width::NoUnit => Some(Taken::NoUnits),
        Width::OneUnit => take_one(state),
        Width::TwoUnits => take_two(state),
    }
}

/// Units on top of a stack, where there is room for them.
fn put<'a>(taken: Taken<'a>, state: &mut TypeState<'a>) -> bool
    ensures { Does result (put_on (units_in taken.entry) state.old) state.new }
{
    match taken {
        Taken::NoUnits => true,
        Taken::One(unit) => state.push_unit(unit),
        Taken::Two(upper, lower) => state.push_unit(lower) && state.push_unit(upper),
    }
}

/// The topmost units go away.
pub fn discard(width: Width, state: &mut TypeState<'_>) -> bool
    ensures { Does result (popped width state.old) state.new }
{
    take_units(width, state).is_some()
}

/// The two values on top change places; neither may be a long.
pub fn swap(state: &mut TypeState<'_>) -> bool
    ensures { Does result (exchanged state.old) state.new }
{
    match (take_one(state), take_one(state)) {
        (Some(upper), Some(lower)) => put(upper, state) && put(lower, state),
        _ => false,
    }
}

/// The topmost units once more, beneath those under them.
pub fn duplicate(copied: Width, under: Width, state: &mut TypeState<'_>) -> bool
    ensures { Does result (duplicated copied under state.old) state.new }
{
    match (take_units(copied, state), take_units(under, state)) {
        (Some(copied), Some(under)) => {
            put(copied, state) && put(under, state) && put(copied, state)
        }
        _ => false,
    }
}
