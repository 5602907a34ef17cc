//! The law that the ids of what a program declares ascend with the places of the declarations.
#![tactic(auto)]

mod order;

pub use order::ids_ascend_with_places;
