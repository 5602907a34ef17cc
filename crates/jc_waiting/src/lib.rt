//! What waits in the Java Virtual Machine: the way of exceptions, and the initialisation of classes (JVMS SE 7, 2.10 and 5.5).
#![tactic(auto)]

mod alone;
mod faults;
mod initialising;
mod onward;
mod ready;
mod settling;
mod stack;
mod thrown;

pub use faults::{fault_class, is_error, is_throwable, set_state};
pub use initialising::{initialise, resume};
pub use onward::Onward;
pub use ready::{initialise_first, is_open};
pub use settling::{go_on_with, return_to, settle};
pub use stack::Stack;
pub use thrown::{throw_fault, throw_fault_among, throw_object, unwind};
