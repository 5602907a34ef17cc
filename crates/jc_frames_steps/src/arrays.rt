//! New arrays.
ghost use Rattle.std.specs.Prelude.{◌≡◌};
ghost use Rattle.std.specs.Option.{option_copied};
ghost use Rattle.jc_frames_types.specs.Items.{item_of};
ghost use Rattle.jc_frames_types.specs.Names.{array_of};
ghost use Rattle.jc_frames_types.specs.States.{Does};
ghost use Rattle.jc_frames_steps.specs.Rules.{array_by_code, array_pushed, references_made, lengths_taken, nest_made};

use crate::takings::change;
use jc_frames_types::{Supertypes, TypeState, UnitType, Wanted, dims_of, push, take};

static BOOLEANS: [u16; 2] = [91, 90];

static CHARS: [u16; 2] = [91, 67];

static BYTES: [u16; 2] = [91, 66];

static SHORTS: [u16; 2] = [91, 83];

static INTS: [u16; 2] = [91, 73];

static LONGS: [u16; 2] = [91, 74];

/// The array type that newarray makes, by its code.
fn name_by_code(n: i32) -> Option<&'static [u16]>
    ensures { option_copied result ≡ array_by_code n }
{
    if n == 4 {
        Some(BOOLEANS.as_slice())
    } else if n == 5 {
        Some(CHARS.as_slice())
    } else if n == 8 {
        Some(BYTES.as_slice())
    } else if n == 9 {
        Some(SHORTS.as_slice())
    } else if n == 10 {
        Some(INTS.as_slice())
    } else if n == 11 {
        Some(LONGS.as_slice())
    } else {
        None
    }
}

/// newarray
pub fn make_array(types: &Supertypes<'_>, n: i32, state: &mut TypeState<'_>) -> bool
    ensures { Does result (array_pushed types.now (array_by_code n) state.old) state.new }
{
    match name_by_code(n) {
        Some(name) => change(types, Wanted::Whole, UnitType::Object(name), state),
        None => false,
    }
}

/// anewarray, of the array type of this name
pub fn make_references<'a>(
    types: &Supertypes<'_>,
    class: &[u16],
    made: &'a [u16],
    state: &mut TypeState<'a>,
) -> bool
    requires { made.now ≡ array_of class.now }
    ensures { Does result (references_made types.now class.now state.old) state.new }
{
    let _class = class;
    change(types, Wanted::Whole, UnitType::Object(made), state)
}

#[tactic(auto, using(crate::proofs::Lengths::length_rules))]
fn take_lengths(types: &Supertypes<'_>, count: u8, state: &mut TypeState<'_>) -> bool
    ensures { Does result (lengths_taken types.now count state.old) state.new }
{
    for _ in 0..count {
        if !take(types, Wanted::Whole, state) {
            return false;
        }
    }
    true
}

/// multianewarray
pub fn make_nest<'a>(
    types: &Supertypes<'_>,
    class: &'a [u16],
    dims: u8,
    state: &mut TypeState<'a>,
) -> bool
    ensures { Does result (nest_made types.now class.now dims state.old) state.new }
{
    (dims > 0 && dims as usize <= dims_of(class))
        && (take_lengths(types, dims, state) && push(state, UnitType::Object(class)))
}
