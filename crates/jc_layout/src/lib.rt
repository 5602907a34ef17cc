//! Classes at run time, and the fields of their objects: the tests and places that jc_heaps defines, carried out.
#![tactic(auto)]

mod fields;
mod testing;

pub use fields::{
    default_erased, default_of, default_value, field_class, is_static, new_fields, slot_of,
};
pub use testing::{
    class_of, element_of, is_array, is_of, is_subclass, methods_class, same_erased, superclass_of,
};
