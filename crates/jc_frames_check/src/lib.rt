//! Verification by type checking (JVMS SE 7, 4.10.1) of class models.
#![tactic(auto)]

mod entries;
mod handlers;
mod merged;
mod methods;
mod passing;

pub use methods::{FrameFault, frames_ok};
