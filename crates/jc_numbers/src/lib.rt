//! Operators and conversions on the values of running programs (JLS 5.1, 15.15 to 15.22), carried out.
#![tactic(auto)]

mod converting;
mod operating;
mod prefixing;
mod shifting;

pub use converting::{boolean_of, converted, element_as, number_as, whole_of};
pub use operating::{operated, truth};
pub use prefixing::{prefixed, stepped};
