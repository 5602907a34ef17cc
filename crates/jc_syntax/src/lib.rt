//! The syntactic stage (JLS 7.3): the trees of all sources of a job, or the rule of the syntax that the first faulty one breaks.
#![tactic(auto)]

mod laws;
mod stage;

pub use laws::syntax_is_told;
pub use stage::{refusal_of, units_of};
