//! What can be wrong with the words of a command line.
use thiserror::Error;

/// What keeps words from being a job. Where several stand together the first of this list is answered.
#[derive(Clone, Copy, Debug, PartialEq, Eq, Error)]
pub enum UsageFault {
    /// The words break a rule on options.
    #[error("the words break a rule on options")]
    Line,
    /// No word names a source.
    #[error("no source is named")]
    NoSource,
    /// There are arguments for a program, and none is to run.
    #[error("arguments without a program to run")]
    Stray,
    /// The number of steps is no decimal number of the wanted size.
    #[error("the number of steps is no decimal number up to 9223372036854775807")]
    Steps,
}
