//! Statements, bodies and loops of a running typed program, one step at a time. Each function leads to what the meaning of its point
//! makes of the whole.
#![tactic(auto)]

mod acting;
mod bodies;
mod forms;
mod listing;
mod loops;
mod statements;
mod trying;
mod turns;

pub use bodies::completion_task;
pub use loops::{
    completion_to_numbered, nothing_to_numbered, numbered_task, numbered_to_completion,
    turn_to_completion,
};
pub use statements::{
    completion_to_completion, nothing_to_completion, value_to_completion, values_to_completion,
};
pub use trying::{caught, finally_behind, finally_thrown, thrown_into};
pub use turns::{completion_to_turn, nothing_to_turn, turn_task, value_to_turn};
