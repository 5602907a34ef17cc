//! Laws of the table that a program has: each is what a function that does nothing ensures.
#![tactic(auto)]

mod hierarchy;
mod index;
mod scopes;
mod supertypes;
mod tables;

pub use hierarchy::no_class_is_its_own_supertype;
pub use index::index_has_the_first_classes;
pub use scopes::scopes_of_classes_end_at_their_units;
pub use supertypes::{
    parameters_are_distinct, supertypes_are_class_types, supertypes_have_places,
    supertypes_speak_of_own_parameters, tables_are_hierarchies,
};
pub use tables::{ids_are_places, names_make_a_table};
