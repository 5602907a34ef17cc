//! How many bytes the instructions of a class file take (JVMS SE 7, 6.5).
#![tactic(auto)]

mod sizes;

pub use sizes::ins_bytes;
