//! Creations of arrays, array initialisers, casts and conditionals (JLS 10.6, 15.10, 15.16, 15.25), over parts that have typings and by which of their parts have one.
#![tactic(auto)]

mod arrays;
mod branches;
mod casting;
mod choices;
mod gates;
mod kinds;
mod noting;

pub use arrays::{array_of, assigned, listed, sized};
pub use casting::cast_to;
pub use choices::{Choice, chosen};
pub use gates::{ChoiceAt, assigned_or, cast_or, choice_parts, chosen_or, listed_or, sized_or};
