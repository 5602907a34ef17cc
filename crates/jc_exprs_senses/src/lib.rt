//! What names in bodies mean that aren't locals (JLS 6.5.2): fields of the classes round the place, classes, and packages.
#![tactic(auto)]

mod sense;
mod senses;

pub use sense::NameSense;
pub use senses::{field_or_member, next_sense, simple_sense};
