//! The table of what a program declares (JLS 8 and 9), made of its declarations and of what their names mean.
#![tactic(auto)]

mod classes;
mod table;

pub use table::table_with;
