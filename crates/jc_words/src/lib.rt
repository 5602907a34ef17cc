//! The command line of javag: which words are a job, and what is wrong with those that aren't.
#![tactic(auto)]

mod fault;
mod job;
mod steps;
mod values;

pub use fault::UsageFault;
pub use job::{Job, read_words};
