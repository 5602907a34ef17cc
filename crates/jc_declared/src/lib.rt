//! What a program declares beside its classes, as its table has it: methods, fields, type variables and the types that bodies write.
#![tactic(auto)]

mod fields;
mod methods;
mod places;
mod types;
mod uses;
mod variables;

pub use fields::push_fields;
pub use methods::push_methods;
pub use types::{no_types, push_classes, push_object, push_written};
pub use uses::push_uses;
pub use variables::{push_variables, variable_ids};
