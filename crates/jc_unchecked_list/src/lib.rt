//! Lists of warnings: how one grows, and how it gets into the order by file, offset and kind, with each warning once.
#![tactic(auto)]

mod merging;
mod telling;

pub use merging::in_order;
pub use telling::tell_if;
