//! Reads statements, members and source files (JLS 7, 8, 9, 14).
#![tactic(auto)]

mod files;
mod members;
mod parsing;
mod statements;

pub use parsing::unit;
