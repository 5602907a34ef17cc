//! The rules on types, headers and clashes (JLS 4.4, 4.5, 8, 9), as definitions, and how the first broken one is kept.
#![tactic(auto)]

mod breaks;

pub use breaks::{if_broken, or_break};
