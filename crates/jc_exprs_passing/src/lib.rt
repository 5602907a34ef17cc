//! Arguments of calls and creations in an arena: each is converted to its parameter's type, and used as one of the declared parameter's erased type (JLS 15.12.4.2).
#![tactic(auto)]

mod erasing;
mod lists;
mod packing;
mod params;
mod passing;

pub use erasing::{declared_erasure, erased_type};
pub use lists::push_type_list;
pub use packing::{push_arguments, push_arguments_in};
pub use params::Params;
