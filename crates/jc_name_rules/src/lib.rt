//! The first broken rule of names in a program (JLS 6 to 9): 301 to 311.
#![tactic(auto)]

mod classes;
mod imports;
mod least;
mod members;
mod packages;
mod repeated;
mod singles;
mod sites;
mod supers;

pub use least::first_break;
