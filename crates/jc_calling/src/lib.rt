//! Calls, creations, classes and assignments of a running typed program, one step at a time. Each function leads to what the meaning
//! of its point makes of the whole.
#![tactic(auto)]

mod acting;
mod calls;
mod classes;
mod values;
mod writing;

pub use calls::{answered_value, call_task, completion_to_value};
pub use classes::{class_task, initialised, initialiser_threw, superclass_ready, superclass_threw};
pub use values::{nothing_to_value, values_to_value};
pub use writing::{nothing_task, nothing_to_nothing, value_to_nothing, values_to_nothing};
