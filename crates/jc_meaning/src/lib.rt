//! What a typed program means (JLS 12.4, 14, 15): by recursion on its nodes, with a count of units. The definitions stand in
//! `specs/`; their laws are the contracts of `laws.rt`.
#![tactic(auto)]

mod frame;
mod laws;
mod target;

pub use frame::{Binding, Frame, Read};
pub use laws::{ended_runs_stay, levels_go_down, one_unit_more};
pub use target::{Native, Target};
