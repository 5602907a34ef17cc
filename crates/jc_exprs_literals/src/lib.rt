//! Literals, and what is asked of a typed expression whatever its form: parentheses round it, and whether it has a value (JLS 3.10, 14.8, 15.8).
#![tactic(auto)]

mod literals;
mod pushing;
mod whole;

pub use literals::{
    WrittenNumber, boolean_literal, char_literal, negated_number, null_literal, number_literal,
    text_literal,
};
pub use whole::{restarted, with_value};
