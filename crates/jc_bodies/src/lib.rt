//! The stage of bodies (JLS 8.4.7, 8.8.7, 14, 15): the typed methods of a program, or the least of the rules that are broken in its bodies.
#![tactic(auto)]

mod checking;
mod gathering;
mod ordering;
mod stage;

pub use stage::type_bodies;
