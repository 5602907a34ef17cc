//! The instructions of classes with all that their names mean, looked up once, and where they stand (JVMS SE 7, 4.3, 5.4.3 and 6.5).
#![tactic(auto)]

mod decoding;
mod members;
mod places;
mod program;
mod row;

pub use decoding::read_row;
pub use places::CodePlaces;
pub use program::Program;
pub use row::{Placed, Row};
