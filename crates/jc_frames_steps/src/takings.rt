//! What instructions take from the stack and put on it (JVMS 4.10.1.4, validTypeTransition).
ghost use Rattle.jc_frames_types.specs.Items.{item_of};
ghost use Rattle.jc_frames_types.specs.States.{Does};
ghost use Rattle.jc_frames_steps.specs.Rules.{taken_two, taken_three, changed, changed_two};

use jc_frames_types::{Supertypes, TypeState, UnitType, Wanted, push, take};

/// Takes two values, the topmost first.
pub fn take_two(
    types: &Supertypes<'_>,
    first: Wanted,
    second: Wanted,
    state: &mut TypeState<'_>,
) -> bool
    ensures { Does result (taken_two types.now first second state.old) state.new }
{
    take(types, first, state) && take(types, second, state)
}

/// Takes three values, the topmost first.
pub fn take_three(
    types: &Supertypes<'_>,
    first: Wanted,
    second: Wanted,
    third: Wanted,
    state: &mut TypeState<'_>,
) -> bool
    ensures { Does result (taken_three types.now first second third state.old) state.new }
{
    take_two(types, first, second, state) && take(types, third, state)
}

/// A value gives way to another one.
pub fn change<'a>(
    types: &Supertypes<'_>,
    wanted: Wanted,
    unit: UnitType<'a>,
    state: &mut TypeState<'a>,
) -> bool
    ensures { Does result (changed types.now wanted (item_of unit.entry) state.old) state.new }
{
    take(types, wanted, state) && push(state, unit)
}

/// Two values give way to another one.
pub fn change_two<'a>(
    types: &Supertypes<'_>,
    first: Wanted,
    second: Wanted,
    unit: UnitType<'a>,
    state: &mut TypeState<'a>,
) -> bool
    ensures { Does result (changed_two types.now first second (item_of unit.entry) state.old) state.new }
{
    take_two(types, first, second, state) && push(state, unit)
}
