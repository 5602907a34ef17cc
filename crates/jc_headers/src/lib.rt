//! The stages of types and of headers (JLS 4, 8, 9): whether a table breaks one of their rules, and which is named.
#![tactic(auto)]

mod stage;

pub use stage::check_headers;
