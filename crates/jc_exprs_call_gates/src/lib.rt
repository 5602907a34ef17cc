//! Calls and creations over parts that earlier walks answered, each of which may be missing (JLS 15.9, 15.12): the rule of the form is asked where all of them are there.
#![tactic(auto)]

mod asking;
mod calls;
mod creations;
mod laws;

pub use asking::asked_or;
pub use calls::{call_here_or, call_on_or, call_super_or};
pub use creations::{constructed_or, created_or};
pub use laws::{before_stays, before_stays_there};
