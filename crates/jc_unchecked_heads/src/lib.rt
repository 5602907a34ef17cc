//! What declarations are warned of: results that don't stand for those of overridden methods (JLS 8.4.5), and raw supertypes (JLS 4.8).
#![tactic(auto)]

mod classes;
mod heads;
mod methods;
mod picking;
mod results;
mod selections;

pub use heads::tell_heads;
