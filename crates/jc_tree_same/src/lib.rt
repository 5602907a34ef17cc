//! Whether two trees are the same, places included. No call takes memory.
#![tactic(auto)]

mod expressions;
mod parts;
mod plain;
mod skips;
mod statements;
mod types;

pub use expressions::{same_expr, same_init};
pub use plain::same_ident;
pub use statements::{same, same_declaration, same_stmt};
pub use types::{same_class, same_type};
