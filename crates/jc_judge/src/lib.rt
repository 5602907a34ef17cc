//! What it means that one type is below another, that an argument contains another, that a type is captured and that it is
//! well formed (JLS 4.5, 4.10 and 5.1.10), and the laws of these definitions. The definitions stand in `specs/`; the code
//! that answers by them is in the crates above.
#![tactic(auto)]

mod faults;
mod laws;
mod question;

pub use faults::{CaptureFault, TypeFault};
pub use laws::{never_both, trees_grow, views_are_found};
pub use question::{Answer, Part, Question};
