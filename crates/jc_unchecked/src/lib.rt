//! The unchecked warnings of a typed program by file, offset and kind, each once.
#![tactic(auto)]

mod listing;

pub use jc_unchecked_spec::{Warning, WarningKind};
pub use listing::warnings;
