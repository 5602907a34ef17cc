//! The constraints of inference (JLS 15.12.2.7, 15.12.2.8): what a constraint between a formal and an actual type implies of the type parameters that
//! are to be inferred.
#![tactic(auto)]

mod aiming;
mod arrays;
mod implying;
mod laws;
mod standing;
mod standings;
mod views;

pub use aiming::implied_by_target;
pub use implying::{implied, is_unknown};
pub use laws::lines_are_listed;
pub use standing::{ArgKind, Implied, Standing};
