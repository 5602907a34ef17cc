//! How often the block behind `finally` stands in the code of its `try`: once behind each way out (JLS 14.20.2).
#![tactic(auto)]

mod counting;
mod exits;
mod targets;

pub use counting::copies;
