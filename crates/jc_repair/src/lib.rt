//! The repair of the least upper bound of a conditional expression or of the alternatives of a catch (JLS 15.25, 14.20): what isn't
//! known to be well formed in it is made looser.
#![tactic(auto)]

mod laws;
mod repairing;

pub use laws::repairs_are_above;
pub use repairing::repair;
