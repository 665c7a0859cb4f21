//! Why a bundle isn't robust.
ghost use Rattle.std.specs.Prelude.{◌≡◌};
ghost use Rattle.fab_trust.specs.declared.error.RobustError.TheVariants.{Memory as OutOfMemory};

use std::alloc::AllocError;
use thiserror::Error;

/// Why a bundle isn't found to be robust: the place of its first `declassify` that isn't, in bytes from
/// 0, and the numbers of the label whose integrity doesn't flow and of the principal to whose alone it
/// doesn't; or want of memory.
#[derive(Debug, Drop, Error)]
pub enum RobustError {
    #[error("robust at {at} from {source} to {principal}")]
    Refused {
        at: u32,
        source: u16,
        principal: u16,
    },
    #[error("out of memory")]
    Memory,
}

impl From<AllocError> for RobustError {
    ghost from_gives = { λ _ e. e ≡ OutOfMemory };

    fn from(_: AllocError) -> Self {
        RobustError::Memory
    }
}
