//! A law of the meaning of typed programs over many units.
#![tactic(auto)]

mod laws;

pub use laws::more_units_go_on;
