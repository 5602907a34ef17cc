//! Erased programs (JLS 4.6) and what they mean: the trees are those of `jc_typed` with types that are their own erasures, calls
//! go by name and descriptor, and objects keep erased types. The definitions stand in `specs/`; their laws are the contracts of
//! `laws.rt`.
#![tactic(auto)]

mod laws;
mod program;

pub use laws::{ended_erased_runs_stay, one_unit_more_of_erased, unselected_calls_are_wrong};
pub use program::{ErasedMethod, ErasedProgram, bulk};
