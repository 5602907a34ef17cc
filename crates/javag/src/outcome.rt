//! How a job ends, and its exit status.
ghost use Rattle.std.specs.Prelude.{◌≡◌, ◌%◌};
ghost use Rattle.std.specs.Int.{w32, cast_unsigned};
ghost use Rattle.javag.specs.Closing.{status_of};

use jc_rules::{Refusal, Text};
use jc_words::UsageFault;

/// How a call of javag ended.
#[derive(Debug, Drop)]
pub enum Outcome {
    Done,
    /// The program threw an exception of this class, and nothing caught it.
    Threw { class: Text },
    /// The words are no job.
    Usage { fault: UsageFault },
    /// A source breaks a rule, or passes a limit.
    Refused { refusal: Refusal },
    /// The program took all its steps, and goes on.
    StepsReached,
    WantOfMemory,
    /// The source of this number, counted from 1, can't be read.
    ShelfFault { file: u64 },
    /// So many class files were written before one could not be.
    ClassFault { written: u64 },
    OutFault,
    KeysFault,
    ErrFault,
    /// The class to run has no `main`.
    NoMain,
    Exited { code: i32 },
}

/// The exit status of an outcome.
pub fn status(outcome: &Outcome) -> u8
    ensures { result ≡ status_of outcome.now }
{
    match outcome {
        Outcome::Done => 0,
        Outcome::Threw { .. } => 1,
        Outcome::Usage { .. } => 2,
        Outcome::Refused { .. } => 3,
        Outcome::StepsReached => 4,
        Outcome::WantOfMemory => 5,
        Outcome::ShelfFault { .. } => 6,
        Outcome::ClassFault { .. } => 7,
        Outcome::OutFault => 8,
        Outcome::KeysFault => 9,
        Outcome::ErrFault => 10,
        Outcome::NoMain => 11,
        Outcome::Exited { code } => low_byte(*code),
    }
}

fn low_byte(code: i32) -> u8
    ensures { result ≡ cast_unsigned w32 code % 256 }
{
    (code.cast_unsigned() % 256) as u8
}
