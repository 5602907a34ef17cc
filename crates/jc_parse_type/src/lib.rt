//! The parser of types (JLS 4).
#![tactic(auto)]

mod parsing;
mod reading;

pub use parsing::{TypeFound, type_at};
pub use reading::{
    args_within, base_within, class_within, dims, more_args, primitive, type_within,
};
