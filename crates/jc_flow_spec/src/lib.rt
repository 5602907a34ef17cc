//! What reachability and exceptions mean (JLS 11.2, 14.21): the state that a walk over a typed body carries. The definitions stand
//! in `specs/`.
#![tactic(auto)]

mod flow;

pub use flow::{Exact, Flow, Thrown, Ways};
