//! What names, constants and prefix operators do in a walk that asks of 64 variables at once whether they are definitely assigned
//! (JLS 16.1), and lists of operands in an order for loops.
#![tactic(auto)]

mod listed;
mod names;
mod tests;

pub use listed::{NameAt, links_listed, names_listed, next_operand, operands_listed};
pub use names::{is_boolean, is_this, use_field, use_local, write_field};
pub use tests::{constant_test, join_prefix, prefix_test};
