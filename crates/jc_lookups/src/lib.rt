//! What the names in instructions mean: descriptors, types, native methods (JVMS SE 7, 4.3, 4.4, 5.4.3).
#![tactic(auto)]

mod calls;
mod fields;
mod names;
mod natives;
mod seeking;
mod shapes;
mod slots;
mod sorts;

pub use calls::{sorts_of_object_call, sorts_of_static_call};
pub use fields::{find_field, find_static_field};
pub use names::{name_of_class, type_name};
pub use natives::{find_native, native_by_name};
pub use shapes::{shape_by_code, shape_by_descriptor, shape_by_name};
pub use slots::find_slot;
pub use sorts::result_sort_of;
