//! Tables made call by call: each call keeps what a table promises, that its index agrees with its classes, that every id is a
//! place in its list, and that written types have their places.
#![tactic(auto)]

mod classes;
mod pushing;

pub use classes::push_class;
pub use pushing::{empty_table, push_field, push_method, push_scope, push_use, push_variable};
