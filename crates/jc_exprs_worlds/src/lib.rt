//! What a place in a body stands in: the program's declarations, its class, the locals in scope, and whether there is an instance; and what is asked of it there: written types, the classes round it,
//! locals by their names and the values of constant fields.
#![tactic(auto)]

mod asking;
mod heads;
mod laws;
mod scene;
mod writing;

pub use asking::{at, constant_field, local_named, named_class, round, this_type};
pub use heads::{class_file, is_interface};
pub use laws::worlds_are_told;
pub use scene::{Here, Initialising, Scene};
pub use writing::{reading, written, written_arg, written_base, written_class};
