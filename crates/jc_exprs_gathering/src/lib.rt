//! Lists of typed parts: what all of them are, where each has a typing, and how a walk goes through them.
#![tactic(auto)]

mod laws;
mod lists;

pub use laws::{every_is_walked, list_behind, list_of_parts};
pub use lists::{are_given, are_typed, typed_part};
