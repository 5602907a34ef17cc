//! Types of which members are asked: type variables by their bounds until none is left.
#![tactic(auto)]

mod asked;
mod opening;
mod settling;

pub use asked::SettledPart;
pub use opening::{is_by_bounds, is_open, opened};
pub use settling::settled;
