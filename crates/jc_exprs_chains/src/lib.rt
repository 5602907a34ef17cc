//! Chains of operators: what a walk has joined so far of a chain of binary operators, and prefix operators from the innermost on (JLS 15.15, 15.17 to 15.24).
#![tactic(auto)]

mod gates;
mod joined;
mod joining;
mod laws;
mod linking;
mod prefixed;
mod signed;
mod signing;
mod testing;
mod whole;

pub use gates::{
    Spanned, finished, first_joined, first_signed, joined_more, no_variable, signed_more,
    signs_finished, tested_more,
};
pub use joined::{JoinedAt, JoinedForm};
pub use laws::{
    chain_begins, chain_ends, joined_stays, joined_stays_in, joined_step, signed_stays,
    signed_stays_in, signed_step, signs_begin, signs_end, tested_step,
};
pub use signed::SignedAt;
