//! The locals in scope in a body (JLS 6.3): the last one of a name is found without a walk over the others, and a scope that ends costs what it declared.
#![tactic(auto)]

mod links;
mod locals;
mod scoped;

pub use locals::Locals;
pub use scoped::ScopedLocal;
