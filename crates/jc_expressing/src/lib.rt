//! Expressions of a running typed program, one step at a time: what an expression begins with, and what follows each of its parts.
//! Each function leads to what the meaning of its point makes of the whole.
#![tactic(auto)]

mod assigning;
mod forms;
mod joining;
mod listing;
mod noting;
mod using;

pub use assigning::{
    change_value, target_task, target_to_value, value_to_target, values_to_target,
};
pub use forms::expression_task;
pub use joining::join_value;
pub use listing::{
    all_true, any_true, fill_with, list_value, value_to_values, values_task, values_to_values,
};
pub use using::use_value;
