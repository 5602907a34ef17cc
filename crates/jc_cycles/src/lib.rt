//! The classes that depend on themselves (JLS 8.1.4, 9.1.3).
#![tactic(auto)]

mod cycles;

pub use cycles::cyclic;
