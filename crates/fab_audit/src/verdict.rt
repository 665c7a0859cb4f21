//! What an audit comes to.

ghost use Rattle.std.specs.Prelude.{◌≡◌};
ghost use Rattle.fab_audit.specs.declared.verdict.AuditError.TheVariants.{Memory};

use fab_evidence::Difference;
use std::alloc::AllocError;

/// What is found of a text that has the form of an audit's: it is right, or this is its first line that
/// isn't so.
#[derive(Debug, Drop)]
pub enum Verdict {
    Right,
    Wrong(Difference),
}

/// Why there is no verdict: want of memory, or a text that hasn't the form.
#[derive(Clone, Copy, Debug)]
pub enum AuditError {
    Memory,
    /// The bytes before `at`, counted from the head of the report, begin a text of an audit, and with the
    /// next they don't, or there is none though one is due.
    Trace { at: u32 },
}

impl From<AllocError> for AuditError {
    ghost from_gives = { λ _ e. e ≡ Memory };

    fn from(_e: AllocError) -> AuditError {
        AuditError::Memory
    }
}
