//! How a call of an outside object ends, if not well.
ghost use Rattle.std.specs.Prelude.{◌≡◌};
ghost use Rattle.jc_outside.specs.declared.error.OutsideError.TheVariants.{WantOfMemory as no_memory};

use jc_rules::WantOfMemory;
use std::alloc::{AllocError, AllocFailed};
use thiserror::Error;

/// What stops a call of a shelf, a class shelf or a paper.
#[derive(Clone, Copy, Debug, PartialEq, Eq, Error)]
pub enum OutsideError {
    #[error("an outside object failed")]
    Failed,
    #[error("out of memory")]
    WantOfMemory,
}

/// The bytes that come in could not be read.
#[derive(Clone, Copy, Debug, PartialEq, Eq, Error)]
#[error("the input failed")]
pub struct KeysFault;

impl From<WantOfMemory> for OutsideError {
    ghost from_gives = { λ _ e. e ≡ no_memory };

    fn from(_: WantOfMemory) -> Self {
        OutsideError::WantOfMemory
    }
}

impl From<AllocError> for OutsideError {
    ghost from_gives = { λ _ e. e ≡ no_memory };

    fn from(_: AllocError) -> Self {
        OutsideError::WantOfMemory
    }
}

impl<T: Drop> From<AllocFailed<T>> for OutsideError {
    ghost from_gives = { λ _ e. e ≡ no_memory };

    fn from(_: AllocFailed<T>) -> Self {
        OutsideError::WantOfMemory
    }
}
