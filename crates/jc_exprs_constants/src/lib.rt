//! Constants of casts and conditionals (JLS 15.25, 15.28), by their values and in the arena of a walk.
#![tactic(auto)]

mod casts;
mod choices;
mod known;
mod lists;

pub use casts::{cast_constant, constant_as, copy_constant, is_numeric, is_string, string_type};
pub use choices::{Fitting, conditional_constant, narrows_from_int, numeric_choice};
pub use known::{KnownAt, constant_part, fixed, known_part};
pub use lists::{push_names_behind, push_places_behind};
