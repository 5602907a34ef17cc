//! The instruction multianewarray (JVMS SE 7, 6.5).
#![tactic(auto)]

mod lengths;
mod nests;

pub use nests::new_nest;
