//! What stands before a point in a body, as the arena of typed expressions has it (JLS 6.5.2, 6.5.6.2).
#![tactic(auto)]

mod laws;
mod meaning;
mod valued;

pub use laws::{meaning_stays, meaning_stays_below};
pub use meaning::MeaningAt;
pub use valued::value_meant;
