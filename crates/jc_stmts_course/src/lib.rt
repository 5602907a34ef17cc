//! The state of a walk through the items of a body (JLS 6.3, 14): locals in scope, the types caught last, the least break and the answers so far, and what each item makes of it.
#![tactic(auto)]

mod answering;
mod asking;
mod course;
mod laws;
mod scoping;

pub use asking::{ask, fill, go_over, label};
pub use course::Course;
pub use laws::{
    asked_resumes, filled_resumes, gone_over_resumes, labelled_resumes, runs_are_later,
    steps_are_seen,
};
pub use scoping::{Declaring, Naming, catch_types, declare, declare_caught, enter, fault, leave};
