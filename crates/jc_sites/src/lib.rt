//! The sites of a program's declarations: each with its tree, which is borrowed, and where it stands, in the order in which they are
//! written; and the types that bodies write.
#![tactic(auto)]

mod expressions;
mod members;
mod parts;
mod places;
mod statements;
mod units;
mod walking;

pub use parts::{BodyPart, MethodForm};
pub use places::{ClassSite, FieldSite, MethodSite, Sites, UnitSite, UseSite, VariableSite};
pub use units::sites;
