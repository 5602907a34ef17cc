//! Laws of the Java Virtual Machine's runs, over their definition.
#![tactic(auto)]

mod laws;

pub use laws::runs_are_steps;
