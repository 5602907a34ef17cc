//! Which method an object's class selects, by numbers alone: each class has a superclass, and of each of its methods a number that stands
//! for its name and descriptor, where a call may select it (JVMS SE 7, 6.5 invokevirtual).
//!
//! Each class has a map from those numbers to what it selects, which shares with its superclass's map all but its own methods. So a
//! selection takes time logarithmic in the number of methods, however many superclasses there are, and all maps together take
//! memory for the methods that are declared, and not for those that are inherited.
#![tactic(auto)]

mod map;
mod selecting;
mod tables;
mod walk;

pub use map::{Branch, SharedMap};
pub use selecting::Selecting;
pub use tables::Table;
