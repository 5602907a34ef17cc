//! Expressions as forms with their laws (JLS 15): how they are read stands in `specs/`, and that what is read is what the grammar spells
//! in `proofs/`. The parser of expressions stands on them.
#![tactic(auto)]

mod laws;

pub use laws::expressions_are_told;
