//! What the meanings of typed and of erased programs are made of: values, what a run shows, the state of a run, and how
//! computations that spend units are put together. The definitions stand in `specs/`; their laws in `proofs/`.
#![tactic(auto)]

mod seen;
mod value;

pub use seen::{Check, Ending, Seen, Shown};
pub use value::{Completion, Readiness, Turn, Value};
