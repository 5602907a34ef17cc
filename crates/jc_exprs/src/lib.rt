//! The walk over the expressions of a body (JLS 15): the typing of every form of expression, or the least of the rules that are broken in it.
#![tactic(auto)]

mod assigning;
mod branches;
mod calls;
mod casting;
mod chains;
mod creating;
mod initialisers;
mod lists;
mod meanings;
mod signs;
mod typing;
mod variables;
mod walking;

pub use typing::typed;
pub use walking::{constructed, effect, initialised};
