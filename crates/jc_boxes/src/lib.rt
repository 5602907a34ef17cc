//! The classes of primitive types (JLS 5.1.7, 5.1.8).
#![tactic(auto)]

mod boxes;

pub use boxes::{box_class, boxed, unboxed};
