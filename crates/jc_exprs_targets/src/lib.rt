//! Variables that are assigned, as the arena of typed expressions has them.
#![tactic(auto)]

mod laws;
mod target;

pub use laws::{target_stays, target_stays_below};
pub use target::TargetAt;
