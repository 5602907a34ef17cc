//! When an instruction is type safe, and the type state behind it (JVMS SE 7, 4.10.1.9): the rules of verification by type checking, one
//! function for a group of instructions.
#![tactic(auto)]

mod arrays;
mod calls;
mod constructors;
mod elements;
mod environment;
mod fields;
mod guards;
mod jumps;
mod locals;
mod members;
mod objects;
mod places;
mod plain;
mod returns;
mod signatures;
mod steps;
mod takings;

pub use environment::Environment;
pub use places::{Places, array_names, place_behind};
pub use signatures::parameters_of;
pub use steps::{falls_through, step};
