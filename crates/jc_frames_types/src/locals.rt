//! What instructions do to the locals of a type state (JVMS 4.10.1.4).
ghost use Rattle.std.specs.Prelude.{◌≡◌, ◌<◌, ◌^◌, ◌-◌, slice_get};
ghost use Rattle.std.specs.Option.{option_map};
ghost use Rattle.jc_frames_types.specs.Items.{item_of};
ghost use Rattle.jc_frames_types.specs.States.{Does, stored, with_locals, without_long_before, unit_behind, last_unit, is_long};

use crate::{TypeState, UnitType};

fn holds_long(unit: Option<UnitType<'_>>) -> bool
    ensures { result ≡ is_long (option_map item_of unit.entry) }
{
    matches!(unit, Some(UnitType::Long))
}

fn last_of(local: usize, unit: UnitType<'_>) -> usize
    requires { local < 2 ^ 16 }
    ensures { result ≡ last_unit local (item_of unit.entry) }
{
    match unit {
        UnitType::Long => local + 1,
        _ => local,
    }
}

fn lose_long_before(local: usize, state: &mut TypeState<'_>)
    ensures { state.new ≡ with_locals (without_long_before local state.old.locals) state.old }
{
    if local > 0 && holds_long(state.local(local - 1)) {
        state.set_local(local - 1, UnitType::Top);
    }
}

fn take_behind(local: usize, unit: UnitType<'_>, state: &mut TypeState<'_>)
    requires { local < 2 ^ 16 }
    ensures { state.new ≡ with_locals (unit_behind local (item_of unit.entry) state.old.locals) state.old }
{
    if matches!(unit, UnitType::Long) {
        state.set_local(local + 1, UnitType::Top);
    }
}

/// A type into a local, and tells whether there is such a local. A long also takes the local behind its own, and what it covers of another
/// long is lost.
pub fn store<'a>(local: u16, unit: UnitType<'a>, state: &mut TypeState<'a>) -> bool
    ensures { Does result (stored local (item_of unit.entry) state.old) state.new }
{
    let at = local as usize;
    if last_of(at, unit) >= state.local_count() {
        return false;
    }
    lose_long_before(at, state);
    state.set_local(at, unit);
    take_behind(at, unit, state);
    true
}
