//! The scopes of a program (JLS 6.3) with the names that each adds, and the index of its classes by their binary names (JLS 13.1).
#![tactic(auto)]

mod binary;
mod entries;
mod scopes;
mod units;

pub use binary::{binary_of, package_of};
pub use scopes::{index_of_classes, push_scopes};
