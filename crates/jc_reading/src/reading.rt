//! What a parser of a part answers.
use jc_lexer::Token;
use jc_rules::WantOfMemory;
use std::alloc::{AllocError, AllocFailed};

/// What was read: its value, the tokens behind it, and how many tokens are left from the reach on, which is the first token that
/// may not stand there.
#[derive(Drop)]
pub struct Found<'a, T> {
    pub value: T,
    pub rest: &'a [Token],
    pub left: usize,
}

/// Why nothing was read: nothing stands there, where so many tokens are left from the reach on, or memory is wanting.
#[derive(Clone, Copy, Debug, PartialEq, Eq)]
pub enum Halt {
    Stopped(usize),
    WantOfMemory,
}

impl From<WantOfMemory> for Halt {
    ghost use Rattle.std.specs.Prelude.{◌≡◌};
    ghost use Rattle.jc_reading.specs.declared.reading.Halt.TheVariants.{WantOfMemory as no_memory};

    ghost from_gives = { λ _ e. e ≡ no_memory };

    fn from(_: WantOfMemory) -> Self {
        Halt::WantOfMemory
    }
}

impl From<AllocError> for Halt {
    ghost use Rattle.std.specs.Prelude.{◌≡◌};
    ghost use Rattle.jc_reading.specs.declared.reading.Halt.TheVariants.{WantOfMemory as no_memory};

    ghost from_gives = { λ _ e. e ≡ no_memory };

    fn from(_: AllocError) -> Self {
        Halt::WantOfMemory
    }
}

impl<T: Drop> From<AllocFailed<T>> for Halt {
    ghost use Rattle.std.specs.Prelude.{◌≡◌};
    ghost use Rattle.jc_reading.specs.declared.reading.Halt.TheVariants.{WantOfMemory as no_memory};

    ghost from_gives = { λ _ e. e ≡ no_memory };

    fn from(_: AllocFailed<T>) -> Self {
        Halt::WantOfMemory
    }
}
