//! The check of a body (JLS 8.8.7.1, 14, 15): its typing, or the least of the rules that are broken in it, cycles of constructors that call each other by `this` included.
#![tactic(auto)]

mod body;
mod calls;
mod targets;

pub use body::check_body;
pub use calls::{ThisCalls, this_calls};
pub use jc_stmts_whole::Program;
