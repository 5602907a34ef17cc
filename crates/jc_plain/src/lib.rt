//! The instructions of the Java Virtual Machine that touch their frame alone (JVMS SE 7, 6.5): constants, locals, the stack, whole numbers
//! and jumps.
#![tactic(auto)]

mod acts;
mod calculations;
mod jumps;
mod locals;
mod numbers;
mod plain;
mod readings;
mod takings;

pub use acts::{Act, go_to, push, throw_in};
pub use locals::is_of_sort;
pub use numbers::{low_byte, low_char, low_short};
pub use plain::act_plain;
pub use readings::{group_of, plain_of};
