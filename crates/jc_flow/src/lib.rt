//! Reachability and exceptions of a method (JLS 11.2, 14.21): whether it breaks one of the rules 701 to 704 and 708, and the least break. Each
//! statement is walked once with what the body assigns, so that a walk takes time in proportion to the text and its nesting.
#![tactic(auto)]

mod gates;
mod methods;
mod numbers;
mod statements;
mod walk;

pub use methods::check_flow;
