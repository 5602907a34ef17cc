//! The unchecked warnings of a typed program: what they are, and where they stand (JLS 4.8, 5.1.9, 5.5.2, 8.4.5, 15.12.4.2).
#![tactic(auto)]

mod warning;

pub use warning::{Warning, WarningKind};
