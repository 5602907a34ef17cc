//! The member types that each class inherits, once all that it needs is known (JLS 8.1.4, 8.5, 9.1.3), its supertypes, and the classes that need
//! themselves. Each class is settled after those that it needs, so that the work grows with the heads and with what is inherited.
#![tactic(auto)]

mod gathering;
mod members;
mod needed;
mod settled;
mod settling;

pub use members::{Members, members_of};
pub use needed::{needs, written_supers};
pub use settled::Sources;
pub use settling::settle;
