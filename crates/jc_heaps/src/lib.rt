//! Heaps, and what typed and erased programs do with them alike: operators on values, tests of classes, the fields of objects,
//! and objects, arrays, strings and exceptions as they are made. The definitions stand in `specs/`.
#![tactic(auto)]

mod given;
mod state;

pub use given::Given;
pub use state::{Input, Interned, Object, State};
