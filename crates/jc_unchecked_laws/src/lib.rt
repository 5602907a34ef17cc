//! Laws of unchecked warnings: what their list has, and in which order.
#![tactic(auto)]

mod laws;

pub use laws::{list_ascends, list_is_told, parts_are_told};
