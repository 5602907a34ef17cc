//! The values of fields that are constant variables (JLS 4.12.4, 15.28).
//!
//! The initialisers are evaluated in an order in which each field stands behind those that it names. A search gives this order, and promises nothing; what comes of it is then compared with what all
//! initialisers give of it, and only the comparison is proved. Were an order ever wrong, all fields would be evaluated in rounds.
#![tactic(auto)]

mod constants;
mod evaluating;
mod naming;
mod operators;
mod ordering;
mod program;
mod valuing;

pub use constants::constants_of;
pub use program::Program;
