//! A body as a flat list of items (JLS 6.3, 14): which locals come into scope and leave it, which expressions are asked and what for, and the rules that are broken
//! whatever the types are: jumps without a target (615), a second `default` (614), and returns that are not what the method gives (619).
#![tactic(auto)]

mod heads;
mod items;
mod jumps;
mod parts;
mod statements;

pub use items::{Broken, Item, PlanItem, Want};
pub use jumps::{Jumps, Returns, Round, RoundForm};
pub use statements::{loop_of, plan};
