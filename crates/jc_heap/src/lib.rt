//! The instructions of the Java Virtual Machine on objects, arrays, strings and types that run no other code (JVMS SE 7, 6.5), and the
//! classes that they ask.
#![tactic(auto)]

mod above;
mod arrays;
mod classes;
mod elements;
mod fields;
mod kinds;
mod layouts;
mod named;
mod names;
mod numbers;
mod objects;
mod places;
mod selection;
mod signatures;
mod special;
mod strings;
mod supers;

pub use arrays::{array_length, make_array, new_array, zero};
pub use classes::Classes;
pub use elements::{load_element, store_element};
pub use fields::{load_field, push_field, store_field};
pub use kinds::{cast, fits, test_kind};
pub use layouts::{fields_in, first_mark, is_static_field, reversed_line, superclass};
pub use named::{NamedClasses, class_named};
pub use names::{class_spelled, field_sort, has_flag, shape_sort, spells};
pub use objects::{make_object, new_object};
pub use places::StringPlace;
pub use selection::find_signature;
pub use special::SpecialClasses;
pub use strings::{interned, make_string, push_literal};
