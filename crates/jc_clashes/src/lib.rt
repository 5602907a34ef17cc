//! The stage of clashes (JLS 8.4.8.3): whether two methods of a class have one erasure of which neither overrides the other, and which
//! clash is named.
#![tactic(auto)]

mod clashing;
mod clear;
mod constructors;
mod erasures;
mod marks;
mod places;
mod shapes;
mod spreading;
mod stage;

pub use stage::check_clashes;
