//! The stage of names (JLS 6 to 9): the table of what a program declares, or the first rule of names that its sources break.
#![tactic(auto)]

mod stage;

pub use stage::names;
