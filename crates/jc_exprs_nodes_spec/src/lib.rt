//! What is told of a node of a body by its parts, and typed expressions with what is done with their values: steps, guards, and capture (JLS 5, 15), as definitions. Their laws are the contracts of
//! functions that do nothing.
#![tactic(auto)]

mod laws;

pub use laws::{found_is_least, one_part, three_parts, two_parts};
