//! Typed trees whose types are erased (JLS 4.6): what the erasure of an arena makes of the trees in it, and that these weigh the same.
#![tactic(auto)]

mod laws;

pub use laws::{bodies_are_erased, bulk_stays, parts_are_erased};
