//! How many parameters of a method are checked where a call of a method that it overrides leads to it (JLS 15.12.4.5).
#![tactic(auto)]

mod checks;
mod overridden;

pub use checks::entry_checks;
