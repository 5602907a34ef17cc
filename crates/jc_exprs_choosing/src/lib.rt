//! The member that a call or the creation of an object in a body means, by its typed arguments (JLS 15.12.2, 15.9.3).
#![tactic(auto)]

mod breaking;
mod choosing;
mod creatable;
mod opening;
mod sites;

pub use breaking::{Broken, broken_of, refused_by};
pub use choosing::{Among, chosen, chosen_by_diamond};
pub use creatable::{constructors, is_raw_type, no_objects, no_parameters};
pub use sites::call_site;
