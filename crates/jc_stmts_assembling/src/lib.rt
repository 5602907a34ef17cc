//! The typed statements of a body, made of the parsed ones and the answers to their items, which are taken in order (JLS 14). A walk over parsed statements pushes
//! the typed ones into the arena in which the answers stand.
#![tactic(auto)]

mod declaring;
mod groups;
mod heads;
mod pushing;
mod statements;
mod taking;

pub use pushing::Made;
pub use statements::{Assembling, assemble};
