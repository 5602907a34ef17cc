//! Copies of trees, which equal what they copy, places included. Only want of memory is an error.
#![tactic(auto)]

mod expressions;
mod files;
mod heads;
mod parts;
mod plain;
mod skips;
mod statements;
mod together;

pub use expressions::{copy_expr, copy_init};
pub use files::copy_file;
pub use statements::{copy_declaration, copy_member, copy_stmt};
