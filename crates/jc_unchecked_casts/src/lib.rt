//! Casts of references of which the machine can't tell that they hold (JLS 5.5.2).
#![tactic(auto)]

mod casts;
mod scene;
mod telling;

pub use casts::is_unchecked_cast;
pub use scene::{Scene, is_below};
