//! The heads of a program's declarations: what names need of them, in their order, without the trees.
#![tactic(auto)]

mod classes;
mod lists;
mod marks;
mod members;
mod paths;
mod units;
mod walking;

pub use classes::{
    head_at, interface_trees, is_interface_head, is_top, kind_of_head, modifiers_in_head,
    name_in_head, params_of_head, within,
};
pub use lists::innermost;
pub use marks::{access_with, says, written_access};
pub use members::{is_constructor_implied, is_static_initialiser_implied};
pub use paths::{package_name, path_of_class};
pub use units::heads;
