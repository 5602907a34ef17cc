//! What the erasure of a typed program is, and that it runs like the program. The definitions stand in `specs/`; their laws are the
//! contracts of `laws.rt`.
#![tactic(auto)]

mod laws;

pub use laws::{a_small_erasure, erasures_run_alike};
