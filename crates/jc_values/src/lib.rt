//! What a running typed program does with its state, carried out: variables, objects, arrays, strings and exceptions, checks, and
//! the bytes that go in and out. Each function does what the computation of its name in jc_heaps and jc_meaning does.
#![tactic(auto)]

mod arrays;
mod halt;
mod making;
mod names;
mod natives;
mod parts;
mod strings;
mod testing;

pub use arrays::{get_element, length_of, repeated, set_element};
pub use halt::{Halt, Running};
pub use making::{address_of, given, make, make_plain};
pub use natives::{class_name, native_act, native_of};
pub use parts::{get_field, local, part_at, put, set_field, set_local, set_part};
pub use strings::{constant_string, make_string};
pub use testing::{checked, closed_erasure, passes};
