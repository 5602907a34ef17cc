//! New objects, and casts.
ghost use Rattle.jc_frames_types.specs.States.{Does};
ghost use Rattle.jc_frames_steps.specs.Rules.{object_made};

use jc_frames_types::{TypeState, UnitType, names_array, push};

/// new, at this offset
pub fn make_object(at: u32, class: &[u16], state: &mut TypeState<'_>) -> bool
    ensures { Does result (object_made at class.now state.old) state.new }
{
    let new = UnitType::Uninitialized(at);
    if names_array(class) || state.has_on_stack(new) {
        return false;
    }
    state.substitute(new, UnitType::Top);
    push(state, new)
}
