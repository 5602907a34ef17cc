//! Initialisers of final fields that have only the forms of a constant expression (JLS 15.28). Whether one is constant is told where its
//! names are looked up.
#![tactic(auto)]

mod casts;
mod forms;
mod literals;
mod names;
mod operators;

pub use forms::constant_of;
