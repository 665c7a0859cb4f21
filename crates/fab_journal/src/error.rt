//! Why a journal isn't read.

ghost use Rattle.std.specs.Prelude.{◌≡◌};
ghost use Rattle.fab_journal.specs.declared.error.RecordError.TheVariants.{Memory};

use std::alloc::{AllocError, AllocFailed};
use thiserror::Error;

/// Why a journal isn't read: want of memory, or whole bytes that are no spelling, and where.
#[derive(Clone, Copy, Debug, PartialEq, Eq, Error)]
pub enum RecordError {
    #[error("out of memory")]
    Memory,
    #[error("bad journal at byte {at}")]
    Bad { at: u64 },
}

impl From<AllocError> for RecordError {
    ghost from_gives = { λ _ e. e ≡ Memory };

    fn from(_e: AllocError) -> RecordError {
        RecordError::Memory
    }
}

impl<T: Drop> From<AllocFailed<T>> for RecordError {
    ghost from_gives = { λ _ e. e ≡ Memory };

    fn from(_e: AllocFailed<T>) -> RecordError {
        RecordError::Memory
    }
}
