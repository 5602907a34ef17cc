//! The instructions of the Java Virtual Machine that the profile has (JVMS SE 7, 6.5), by name, with their numbers.
#![tactic(auto)]

mod opcode;

pub use opcode::{OPCODES, Opcode, by_number};
