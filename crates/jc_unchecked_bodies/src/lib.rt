//! What the body of a method is warned of: unchecked conversions, casts, members of raw types, and arrays of types that aren't
//! wholly there at run time (JLS 4.8, 5.1.9, 5.5.2, 15.12.4.2).
#![tactic(auto)]

mod conversions;
mod expressions;
mod forms;
mod members;
mod statements;
mod walk;

pub use statements::tell_method;
