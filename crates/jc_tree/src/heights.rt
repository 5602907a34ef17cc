//! How deep the nodes of a tree lie in each other.
mod expressions;
mod parts;
mod statements;
mod types;

pub use expressions::{array_height, expr_height};
pub use parts::modifiers_height;
pub use statements::height;
pub use types::{args_height, base_height, class_height, type_height};
