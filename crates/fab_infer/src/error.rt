//! Why there are no least labels that are accepted.
ghost use Rattle.std.specs.Prelude.{◌≡◌};
ghost use Rattle.fab_infer.specs.declared.error.InferError.TheVariants.{Memory as OutOfMemory};

use fab_labelling::{LabelRule, Side};
use std::alloc::AllocError;
use thiserror::Error;

/// Why holes aren't filled: the place of the first hole that has no least label, in bytes from 0; the
/// first refusal of the least labels, where each hole has one; or want of memory.
#[derive(Debug, Drop, Error)]
pub enum InferError {
    #[error("no least at {at}")]
    NoLeast {
        at: u32,
    },
    #[error("label {rule:?} at {at}: {source:?} to {target:?}")]
    NoSolution {
        rule: LabelRule,
        at: u32,
        source: Side,
        target: Side,
    },
    #[error("out of memory")]
    Memory,
}

impl From<AllocError> for InferError {
    ghost from_gives = { λ _ e. e ≡ OutOfMemory };

    fn from(_: AllocError) -> Self {
        InferError::Memory
    }
}
