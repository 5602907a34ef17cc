//! What the items of a body want of expressions (JLS 14): truths, results, selectors, what is thrown, labels of a `switch`, what an enhanced `for` goes over, and the types of catch clauses.
#![tactic(auto)]

mod answers;
mod catching;
mod constants;
mod iterating;
mod labels;
mod laws;
mod wanting;

pub use answers::{KeyAt, Scope};
pub use catching::{caught_breaks, caught_type, push_type_list};
pub use constants::{operand_constant, operand_type};
pub use iterating::each;
pub use labels::{Labelling, label};
pub use laws::{each_part, label_part, wanted_part};
pub use wanting::{Wanting, wanted};
