//! What is asked of a parsed expression without a walk over its parts: where it begins, its operators, and what literals are (JLS 3.10, 15.8.1, 15.14, 15.26).
#![tactic(auto)]

mod laws;
mod literals;
mod starting;

pub use laws::{wanted_stays, wanted_stays_below};
pub use literals::{literal, negated_literal};
pub use starting::{aimed, operator_of, postfix_op, start_of};
