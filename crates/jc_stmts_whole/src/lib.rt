//! A body from its first part to its last (JLS 8.8.7, 12.4.2, 12.5, 14): the call that a constructor begins with, the initialisers, and the block. What is seen of the state behind each part is what the
//! definition has there, and the typed statements are made as long as nothing is broken.
#![tactic(auto)]

mod blocks;
mod initialisers;
mod lists;
mod program;
mod spots;
mod whole;

pub use program::Program;
pub use spots::early_scene;
pub use whole::{Whole, check_whole};
