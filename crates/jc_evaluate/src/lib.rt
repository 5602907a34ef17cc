//! What a typed program shows, computed: the points that a run has left to do stand on a stack of plain data, and the run goes from one
//! to the next. It takes no stack of its own, however deep the program recurs, and copies no heap.
#![tactic(auto)]

mod giving;
mod leaving;
mod points;
mod running;
mod starting;
mod todo;
mod turning;

pub use running::{evaluate, evaluate_main};
