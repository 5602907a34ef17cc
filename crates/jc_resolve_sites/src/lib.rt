//! What a call in a body asks `jc_resolve`: its members as views whose type parameters are renamed apart from the types of the body (JLS 15.12.2.7), and the constructors of a class, as
//! a creation has them and as a creation with a diamond has them (JLS 15.9.3).
#![tactic(auto)]

mod above;
mod constructors;
mod laws;
mod renaming;
mod sites;

pub use constructors::{constructor_ids, diamond_view};
pub use laws::{arguments_are_apart, names_are_below};
pub use sites::{apart_site, renamed_site};
