//! The bodies of a unit: those of its methods and constructors, and what no source writes: implied constructors and static initialisers (JLS 8.3.2, 8.4.7, 8.6,
//! 8.7, 8.8.7, 8.8.9, 12.4.2, 12.5). They borrow the parsed statements and expressions.
#![tactic(auto)]

mod beginning;
mod blocks;
mod body;
mod classes;
mod initialisers;
mod methods;
mod units;

pub use body::{Begins, Initialiser, InitialiserForm, MethodBody};
pub use units::{UnitTypes, bodies};
