//! Returns.
ghost use Rattle.jc_frames_types.specs.States.{Does};
ghost use Rattle.jc_frames_steps.specs.Rules.{returned, returned_as};

use crate::Environment;
use crate::locals::is_of;
use crate::signatures::{is_void, result_of};
use jc_frames_types::{Supertypes, TypeState, take_as, unit_of_type};
use jc_jvm::Sort;

fn return_as(
    types: &Supertypes<'_>,
    sort: Option<Sort>,
    result_type: &[u16],
    state: &mut TypeState<'_>,
) -> bool
    ensures { Does result (returned_as types.now sort result_type.now state.old) state.new }
{
    match sort {
        None => is_void(result_type) && !state.is_pending(),
        Some(sort) => {
            let unit = unit_of_type(result_type);
            !is_void(result_type) && is_of(sort, unit) && take_as(types, unit, state)
        }
    }
}

/// The method returns a value of this sort, or none.
pub fn return_of(e: &Environment<'_>, sort: Option<Sort>, state: &mut TypeState<'_>) -> bool
    ensures { Does result (returned e.now sort state.old) state.new }
{
    return_as(
        e.types(),
        sort,
        result_of(e.method().descriptor.slice()),
        state,
    )
}
