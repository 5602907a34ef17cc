//! Operators on typed operands: which operands each one takes and what it gives, what they are converted to, and what it gives of constants (JLS 15.15, 15.17 to 15.24, 15.28).
#![tactic(auto)]

mod constants;
mod kinds;
mod listing;
mod making;
mod prefixing;
mod primitives;
mod stepping;
mod taking;

pub use constants::{
    Folded, Grown, KnownAt, Mentions, constant_in, fold_known, fold_onto, push_fixed,
};
pub use kinds::{exact_primitive, is_string, string_type};
pub use making::push_node;
pub use prefixing::{prefix_on, prefix_taken, prefixed_constant};
pub use primitives::{as_primitive, is_boolean, is_long, is_numeric, promoted, promoted_both};
pub use stepping::{
    joint_of, left_of, op_of, push_left_steps, push_operand_to, push_result, push_steps_to,
    result_type, right_of,
};
pub use taking::{Promoted, Taking, Verdict, taken};
