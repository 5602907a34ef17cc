//! Erasure (JLS 4.6) keeps what a program does: in every state, with every number of units, the bodies of an erased program do what those of the
//! typed one do.
#![tactic(auto)]

mod laws;

pub use laws::erasure_keeps_meaning;
