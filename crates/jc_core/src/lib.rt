//! The Java Virtual Machine (JVMS SE 7): a machine that runs classes.
#![tactic(auto)]

mod machine;
mod run;
mod start;
mod steps;

pub use machine::{Core, Progress, Stepped};
pub use run::Ran;
