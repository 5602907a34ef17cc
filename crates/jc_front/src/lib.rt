//! The front end: what the sources of a job are, or the rule that they break. The stages stand here one behind the other, and the trees
//! are owned here: every stage borrows them.
#![tactic(auto)]

mod moving;
mod reading;
mod texts;
mod units;

pub use reading::{Sources, sources_of, tokens_of};
