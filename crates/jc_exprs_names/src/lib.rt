//! What names of values mean at a place in a body (JLS 6.5.2, 6.5.6), over what earlier walks have of their parts, if it is there.
#![tactic(auto)]

mod behind;
mod classes;
mod fields;
mod gates;
mod meanings;
mod reading;
mod simple;

pub use behind::{located_behind, next_meant};
pub use gates::{element_or, located_behind_or, next_meant_or, no_variable, target_or};
pub use reading::{meaning_or, value_or};
pub use simple::{first_meant, simple_located};
