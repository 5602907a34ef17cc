//! Loads and stores of elements of arrays.
ghost use Rattle.jc_frames_types.specs.States.{Does};
ghost use Rattle.jc_frames_steps.specs.Rules.{reference_loaded, element_loaded, element_stored};

use crate::takings::{change_two, take_three};
use jc_frames_types::{Supertypes, TypeState, UnitType, Wanted, element_of, push, take};
use jc_jvm::Element;

fn load_reference(state: &mut TypeState<'_>) -> bool
    ensures { Does result (reference_loaded state.old) state.new }
{
    match state.pop_unit() {
        Some(array) => match element_of(array) {
            Some(element) => push(state, element),
            None => false,
        },
        None => false,
    }
}

/// An element goes onto the stack in place of its array and index.
pub fn load_element(types: &Supertypes<'_>, element: Element, state: &mut TypeState<'_>) -> bool
    ensures { Does result (element_loaded types.now element state.old) state.new }
{
    let whole = UnitType::Integer;
    match element {
        Element::OfInt => change_two(types, Wanted::Whole, Wanted::IntArray, whole, state),
        Element::OfLong => {
            change_two(
                types,
                Wanted::Whole,
                Wanted::LongArray,
                UnitType::Long,
                state,
            )
        }
        Element::OfReference => take(types, Wanted::Whole, state) && load_reference(state),
        Element::OfByte => change_two(types, Wanted::Whole, Wanted::ByteArray, whole, state),
        Element::OfChar => change_two(types, Wanted::Whole, Wanted::CharArray, whole, state),
        Element::OfShort => change_two(types, Wanted::Whole, Wanted::ShortArray, whole, state),
    }
}

/// An element goes from the stack into its array.
pub fn store_element(types: &Supertypes<'_>, element: Element, state: &mut TypeState<'_>) -> bool
    ensures { Does result (element_stored types.now element state.old) state.new }
{
    let index = Wanted::Whole;
    match element {
        Element::OfInt => take_three(types, Wanted::Whole, index, Wanted::IntArray, state),
        Element::OfLong => take_three(types, Wanted::LongPair, index, Wanted::LongArray, state),
        Element::OfReference => {
            take_three(types, Wanted::AnyObject, index, Wanted::ObjectArray, state)
        }
        Element::OfByte => take_three(types, Wanted::Whole, index, Wanted::ByteArray, state),
        Element::OfChar => take_three(types, Wanted::Whole, index, Wanted::CharArray, state),
        Element::OfShort => take_three(types, Wanted::Whole, index, Wanted::ShortArray, state),
    }
}
