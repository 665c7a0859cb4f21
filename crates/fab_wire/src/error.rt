//! Why bytes aren't decoded.

ghost use Rattle.std.specs.Prelude.{◌≡◌};
ghost use Rattle.fab_wire.specs.declared.error.DecodeError.TheVariants.{Memory};

use std::alloc::AllocError;
use thiserror::Error;

/// Why bytes aren't decoded: want of memory, or they spell no message that is short enough.
#[derive(Clone, Copy, Debug, PartialEq, Eq, Error)]
pub enum DecodeError {
    #[error("out of memory")]
    Memory,
    /// The bytes before `at` begin a message, and with the next they don't, or there is none
    /// though one is due.
    #[error("no message: wrong at byte {at}")]
    Bad { at: u32 },
}

impl From<AllocError> for DecodeError {
    ghost from_gives = { λ _ e. e ≡ Memory };

    fn from(_e: AllocError) -> DecodeError {
        DecodeError::Memory
    }
}
