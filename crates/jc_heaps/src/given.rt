//! What an operator gives.
use jc_running::Value;

/// What an operator gives: a value, a division by zero, or nothing, where it doesn't take these values.
#[derive(Clone, Copy, Debug, PartialEq, Eq)]
pub enum Given {
    Gives(Value),
    ByZero,
    Unfit,
}
