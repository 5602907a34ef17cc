//! What the rows of the instruction table do to a machine that runs (JVMS SE 7, 6.5).
#![tactic(auto)]

mod act;
mod calls;
mod did;
mod fields;
mod in_place;
mod making;
mod natives;
mod returns;
mod rows;
mod switches;

pub use did::Did;
pub use rows::step_row;
