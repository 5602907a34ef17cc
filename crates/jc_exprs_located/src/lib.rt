//! What is found at a place in a body (JLS 6.5.6, 15.8.3, 15.11, 15.13): locals, fields, elements and lengths of arrays, with their values where they are read, and the variables where they are
//! assigned; and `this`.
#![tactic(auto)]

mod breaks;
mod constants;
mod elements;
mod fields;
mod located;
mod members;
mod premises;
mod reading;
mod this;
mod variables;

pub use breaks::{broken, refused};
pub use elements::element_of;
pub use fields::{push_class_field, push_own_field};
pub use located::{FieldFound, LocatedAt};
pub use members::{super_member, value_member};
pub use premises::{both_hold, refused_both};
pub use reading::value_of;
pub use this::{instance_break, this_value};
pub use variables::target_of;
