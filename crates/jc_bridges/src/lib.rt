//! The bridge methods of classes (JLS 8.4.8, 15.12.4.5): with them a call by name and descriptor leads to the body that overriding gives.
#![tactic(auto)]

mod bridging;
mod descriptors;

pub use bridging::{all_bridges, bridges};
pub use descriptors::{is_called_as, is_selectable, same_descriptor, same_erasure};
pub use jc_bridges_spec::Bridge;
