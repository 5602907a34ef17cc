//! Laws of the least upper bound: each type is under it by its supertypes, and below it by what fits it.
#![tactic(auto)]

mod laws;

pub use laws::{operands_are_below_their_lub, operands_are_under_their_lub};
