//! Reading tokens from left to right: what was read, how single tokens are read, and the laws by which readers go together.
#![tactic(auto)]

mod held;
mod reading;
mod tokens;

pub use held::{boxed_beside, pushed, three_boxed, two_boxed, without};
pub use reading::{Found, Halt};
pub use tokens::{behind_key, behind_sign, identifier, place_of_key, place_of_sign};
