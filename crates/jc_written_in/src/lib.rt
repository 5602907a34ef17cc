//! What the types mean that trees write in the scopes of a program (JLS 6.5.5), asked by the stages behind that of names.
#![tactic(auto)]

mod laws;
mod naming;
mod writing;

pub use laws::{types_of_bodies_are_written, types_of_bodies_break_no_rule};
pub use naming::{Naming, naming_of};
pub use writing::{Spot, written};
