//! Laws of headers: what holds of a table that the stages of types and headers, and of clashes, take. Each is what a function that does nothing ensures.
#![tactic(auto)]

mod laws;

pub use laws::{
    bodies_of_members_are_one, bodies_that_stand_are_one, declared_signatures_differ,
    erasures_of_constructors_differ, members_of_one_erasure_stand_for_each_other,
    members_sign_what_they_reach, methods_have_their_bodies, overriding_is_transitive,
    overriding_methods_fit, selected_body_is_one, selection_finds_a_body, supertypes_are_exact,
    supertypes_of_one_class_are_one, what_is_reached_is_replaced,
    written_supertypes_are_supertypes, written_types_are_well_formed,
};
