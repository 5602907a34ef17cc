//! Small sources, the first that javag compiles: one class `Main` whose `main` writes bytes, each the low byte of a sum.
#![tactic(auto)]

mod compiling;
mod emitting;
mod fixed;
mod reading;

pub use compiling::compile;
