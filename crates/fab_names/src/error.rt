//! Why a bundle isn't resolved.
ghost use Rattle.std.specs.Prelude.{◌≡◌};
ghost use Rattle.fab_names.specs.declared.error.NameError.TheVariants.{Memory as OutOfMemory};

use fab_language::NameRule;
use std::alloc::AllocError;
use thiserror::Error;

/// Why a bundle isn't resolved: the first place at which it breaks a rule of names and types, in
/// bytes from 0, or want of memory.
#[derive(Debug, Drop, Error)]
pub enum NameError {
    #[error("name {rule:?} at {at}")]
    Refused { rule: NameRule, at: u32 },
    #[error("out of memory")]
    Memory,
}

impl From<AllocError> for NameError {
    ghost from_gives = { λ _ e. e ≡ OutOfMemory };

    fn from(_: AllocError) -> Self {
        NameError::Memory
    }
}
