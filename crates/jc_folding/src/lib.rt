//! The values of constant expressions (JLS 15.28): operators between constants.
#![tactic(auto)]

mod folding;
mod spelling;

pub use folding::fold;
