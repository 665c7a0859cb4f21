//! Why a call on the frames gave nothing.
ghost use Rattle.std.specs.Prelude.{◌≡◌};
ghost use Rattle.fab_nested.specs.declared.frame_error.FrameError.TheVariants.{Memory};

use fab_base::{Oid, Stop};
use std::alloc::{AllocError, AllocFailed};

/// Why a call gave nothing: want of memory, an object that isn't there, or a limit that was reached.
#[derive(Clone, Copy, Debug, PartialEq, Eq)]
pub enum FrameError {
    Memory,
    Need(Oid),
    Full(Stop),
}

impl From<AllocError> for FrameError {
    ghost from_gives = { λ _ e. e ≡ Memory };

    fn from(_: AllocError) -> Self {
        FrameError::Memory
    }
}

impl<T: Drop> From<AllocFailed<T>> for FrameError {
    ghost from_gives = { λ _ e. e ≡ Memory };

    fn from(_: AllocFailed<T>) -> Self {
        FrameError::Memory
    }
}
