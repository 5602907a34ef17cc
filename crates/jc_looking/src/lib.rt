//! What a name of a type means where it stands (JLS 6.3, 6.4.1, 6.5.5), found in the heads of a program's declarations by their index, without
//! a walk over the declarations.
#![tactic(auto)]

mod access;
mod bodies;
mod inherited;
mod names;
mod scene;
mod units;

pub use access::{access_of, is_accessible, package_of, round_of, top_of_class};
pub use bodies::{first_meaning, known_of, member};
pub use inherited::Inherited;
pub use names::{may_be_named, meaning, pass};
pub use scene::{Scene, Sight, Standing};
