ghost use Rattle.std.specs.Prelude.{◌≡◌, ℕ, List, Option, OnOk};
ghost use Rattle.std.specs.Io.{ReadsAtMost, WritesAtMost};
ghost use Rattle.std.specs.Io.KnownBytes.{ReadConsumes};
ghost use Rattle.fab_base.specs.Faults.{HasCause};
ghost use Rattle.fab_base.specs.Sinks.{SinkTakes, SinkCause};
ghost use Rattle.fab_base.specs.declared.outside.traits.SinkError.TheVariants.{Memory};

use std::alloc::{AllocError, AllocFailed};

/// The outside failed.
#[derive(Clone, Copy, Debug, PartialEq, Eq)]
pub struct Failed;

/// Why a sink takes no more: it failed, or memory ran out.
#[derive(Clone, Copy, Debug, PartialEq, Eq)]
pub enum SinkError {
    Failed,
    Memory,
}

impl From<AllocError> for SinkError {
    ghost from_gives = { λ _ e. e ≡ Memory };

    fn from(_: AllocError) -> Self {
        SinkError::Memory
    }
}

impl<T: Drop> From<AllocFailed<T>> for SinkError {
    ghost from_gives = { λ _ e. e ≡ Memory };

    fn from(_: AllocFailed<T>) -> Self {
        SinkError::Memory
    }
}

/// Where bytes come from.
pub trait Source {
    /// What is left, where it tells that.
    ghost left: { Self → Option (List ℕ) };

    /// How often it has failed. The count stays at its last value, 2^64 - 1, and a success leaves it.
    ghost faults: { Self → ℕ };

    /// Reads the next bytes into the front of the buffer, and answers how many. 0 for a buffer
    /// that isn't empty is the end.
    fn read(&mut self, buf: &mut [u8]) -> Result<usize, Failed>
        ensures bound { ReadsAtMost result buf.new }
        ensures bytes { ReadConsumes (left self.old) (left self.new) result buf.new }
        ensures cause { HasCause (faults self.old) (faults self.new) result }
        ensures success { OnOk result (faults self.new ≡ faults self.old) };
}

/// Where bytes go.
pub trait Sink {
    /// What was written, where it tells that.
    ghost written: { Self → Option (List ℕ) };

    /// How often it has failed. The count stays at its last value, 2^64 - 1, and at all but a fault.
    ghost faults: { Self → ℕ };

    /// Takes a front of the piece, and answers how many bytes. 0 for a piece that isn't empty is
    /// a fault.
    fn write(&mut self, piece: &[u8]) -> Result<usize, SinkError>
        ensures bound { WritesAtMost result piece.now }
        ensures bytes { SinkTakes (written self.old) (written self.new) result piece.now }
        ensures cause { SinkCause (faults self.old) (faults self.new) result piece.now };
}
