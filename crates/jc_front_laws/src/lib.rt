//! Laws of what the front end gives: the table of sources that break no rule of a stage that is built.
#![tactic(auto)]

mod laws;

pub use laws::{
    ids_ascend_with_places, no_class_is_its_own_supertype, sources_form_a_hierarchy,
    sources_have_a_table, sources_have_headers,
};
