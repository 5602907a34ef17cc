//! Well-formed types (JLS 4.5): each class type in a type has as many arguments as its class has parameters, each argument is
//! within its declared bounds after capture, and so is the lower bound of each super wildcard.
#![tactic(auto)]

mod answering;
mod checking;
mod faults;
mod forming;

pub use checking::check_type;
pub use faults::class_faults;
pub use forming::well_formed;
pub use jc_judge::{Answer, TypeFault};
