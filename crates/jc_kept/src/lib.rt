//! The types that a running program keeps, carried out: types with what their variables stand for, and what objects and arrays keep
//! of theirs.
#![tactic(auto)]

mod binding;
mod closing;
mod unbounded;

pub use binding::{arguments_as, bindings, class_bindings, is_unborn, kept_by, unsaid, unsaid_all};
pub use closing::{close, close_all};
pub use unbounded::kept_array;
