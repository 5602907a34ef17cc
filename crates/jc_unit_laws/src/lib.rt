//! Statements, members and source files as forms with their laws (JLS 7, 8, 9, 14): how they are read stands in `specs/`, and that what
//! is read is what the grammar spells in `proofs/`. The parser of source files stands on them.
#![tactic(auto)]

mod laws;

pub use laws::files_are_told;
