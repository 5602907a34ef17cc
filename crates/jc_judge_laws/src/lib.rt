//! Laws of the definitions in `jc_judge`: each is what a function that does nothing ensures.
#![tactic(auto)]

mod deciding;
mod erasing;
mod viewing;

pub use deciding::{
    answers_are_right, answers_are_single, checked_fault_is_the_first, containments_are_right,
    forming_is_right,
};
pub use erasing::{longer_env_erases_alike, variable_erases_to_leftmost_bound};
pub use viewing::{
    array_is_an_object, bounds_are_flat, view_has_the_class, views_are_exact, views_are_stable,
};
