//! The declarations of each class, unit and method by their numbers, in their order: member types, types of units, methods, fields and type
//! parameters.
#![tactic(auto)]

mod groups;
mod members;

pub use groups::Groups;
pub use members::{Members, members_of};
