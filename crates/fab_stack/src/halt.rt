//! How an evaluation ends before its last statement.
ghost use Rattle.std.specs.Prelude.{◌≡◌};
ghost use Rattle.fab_stack.specs.declared.halt.Halt.TheVariants.{Memory};

use fab_base::{Oid, Stop};
use std::alloc::{AllocError, AllocFailed};

/// How an evaluation ends before its last statement.
#[derive(Clone, Copy, Debug, PartialEq, Eq)]
pub enum End {
    Failed,
    Stopped(Stop),
    Missing { site: u16, oid: Oid },
}

/// Why a call of the evaluator gave no value: want of memory, or the end of the evaluation.
#[derive(Clone, Copy, Debug, PartialEq, Eq)]
pub enum Halt {
    Memory,
    Ended(End),
}

impl From<AllocError> for Halt {
    ghost from_gives = { λ _ e. e ≡ Memory };

    fn from(_: AllocError) -> Self {
        Halt::Memory
    }
}

impl<T: Drop> From<AllocFailed<T>> for Halt {
    ghost from_gives = { λ _ e. e ≡ Memory };

    fn from(_: AllocFailed<T>) -> Self {
        Halt::Memory
    }
}
