//! Where a name of a program is declared: the member types of classes, the types of units, and the type parameters of classes and methods,
//! found by their names without a walk over the others.
#![tactic(auto)]

mod index;
mod indexed;
mod spaces;

pub use index::{Index, index_of};
pub use indexed::Indexed;
pub use spaces::Spaces;
