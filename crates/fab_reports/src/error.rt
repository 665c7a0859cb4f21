//! Why a report isn't read.

ghost use Rattle.std.specs.Prelude.{◌≡◌};
ghost use Rattle.fab_reports.specs.declared.error.TraceError.TheVariants.{Memory};

use std::alloc::AllocError;
use thiserror::Error;

/// Why a report isn't read: want of memory, or bytes that are no report.
#[derive(Clone, Copy, Debug, PartialEq, Eq, Error)]
pub enum TraceError {
    #[error("out of memory")]
    Memory,
    /// The bytes before `at` begin a report, and with the next they don't, or there is none though
    /// one is due.
    #[error("no report: wrong at byte {at}")]
    Bad { at: u32 },
}

impl From<AllocError> for TraceError {
    ghost from_gives = { λ _ e. e ≡ Memory };

    fn from(_e: AllocError) -> TraceError {
        TraceError::Memory
    }
}
