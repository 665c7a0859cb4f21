//! Why a bundle isn't well labelled.
ghost use Rattle.std.specs.Prelude.{◌≡◌};
ghost use Rattle.fab_check.specs.declared.error.LabelError.TheVariants.{Memory as OutOfMemory};

use fab_labelling::{LabelRule, Side};
use std::alloc::AllocError;
use thiserror::Error;

/// Why a bundle isn't found to be well labelled: the first place at which it breaks a rule of labels,
/// in bytes from 0, and what doesn't flow where; or want of memory.
#[derive(Debug, Drop, Error)]
pub enum LabelError {
    #[error("label {rule:?} at {at}: {source:?} to {target:?}")]
    Refused {
        rule: LabelRule,
        at: u32,
        source: Side,
        target: Side,
    },
    #[error("out of memory")]
    Memory,
}

impl From<AllocError> for LabelError {
    ghost from_gives = { λ _ e. e ≡ OutOfMemory };

    fn from(_: AllocError) -> Self {
        LabelError::Memory
    }
}
