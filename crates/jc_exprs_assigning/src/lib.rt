//! Assignments, compound assignments, `++` and `--` (JLS 15.14.2, 15.14.3, 15.15.1, 15.15.2, 15.26).
#![tactic(auto)]

mod changing;
mod compound;
mod gates;
mod laws;
mod reading;
mod storing;

pub use changing::Change;
pub use gates::{changed_target, compound_parts, stored_parts};
pub use laws::{both_with_target, feeding_target, one_target};
