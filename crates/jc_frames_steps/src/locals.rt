//! Constants, and loads and stores of locals.
ghost use Rattle.std.specs.Prelude.{◌≡◌};
ghost use Rattle.std.specs.Option.{option_map};
ghost use Rattle.jc_frames_types.specs.Items.{item_of};
ghost use Rattle.jc_frames_types.specs.States.{Does};
ghost use Rattle.jc_frames_steps.specs.Rules.{constant_pushed, is_of as is_of_sort, is_whole as is_whole_local, loaded, reference_stored, stored_as, incremented};

use jc_frames_types::{Supertypes, TypeState, UnitType, Wanted, is_reference, push, store, take};
use jc_jvm::{Sort, Value};

/// A constant, which is no address.
pub fn push_constant(value: Value, state: &mut TypeState<'_>) -> bool
    ensures { Does result (constant_pushed value state.old) state.new }
{
    match value {
        Value::Whole(_) => push(state, UnitType::Integer),
        Value::Long(_) => push(state, UnitType::Long),
        Value::NullValue => push(state, UnitType::NullItem),
        Value::Address(_) => false,
    }
}

/// Whether a type is int, long or a reference, as the sort says.
pub fn is_of(sort: Sort, unit: UnitType<'_>) -> bool
    ensures { result ≡ is_of_sort sort (item_of unit.entry) }
{
    match sort {
        Sort::WholeSort => matches!(unit, UnitType::Integer),
        Sort::LongSort => matches!(unit, UnitType::Long),
        Sort::ReferenceSort => is_reference(unit),
    }
}

/// The type of a local goes onto the stack.
pub fn load(sort: Sort, local: u16, state: &mut TypeState<'_>) -> bool
    ensures { Does result (loaded sort local state.old) state.new }
{
    match state.local(local as usize) {
        Some(unit) => is_of(sort, unit) && push(state, unit),
        None => false,
    }
}

fn store_reference(local: u16, state: &mut TypeState<'_>) -> bool
    ensures { Does result (reference_stored local state.old.stack state.old) state.new }
{
    match state.pop_unit() {
        Some(unit) => is_reference(unit) && store(local, unit, state),
        None => false,
    }
}

/// The type on top goes into a local.
pub fn store_of(types: &Supertypes<'_>, sort: Sort, local: u16, state: &mut TypeState<'_>) -> bool
    ensures { Does result (stored_as types.now sort local state.old) state.new }
{
    match sort {
        Sort::WholeSort => {
            take(types, Wanted::Whole, state) && store(local, UnitType::Integer, state)
        }
        Sort::LongSort => {
            take(types, Wanted::LongPair, state) && store(local, UnitType::Long, state)
        }
        Sort::ReferenceSort => store_reference(local, state),
    }
}

fn is_whole(unit: Option<UnitType<'_>>) -> bool
    ensures { result ≡ is_whole_local (option_map item_of unit.entry) }
{
    matches!(unit, Some(UnitType::Integer))
}

/// A local int grows.
pub fn increment(local: u16, state: &mut TypeState<'_>) -> bool
    ensures { Does result (incremented local state.old) state.new }
{
    is_whole(state.local(local as usize))
}
