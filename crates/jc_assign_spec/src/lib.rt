//! What definite assignment means (JLS 16): what is known of a variable at a point, and the exits of a part of a body. The definitions
//! stand in `specs/`.
#![tactic(auto)]

mod marks;

pub use marks::{Exit, Jump, Mark, Variable};
