//! All of a text.
ghost use Rattle.std.specs.Prelude.{◌≡◌, ◌≢◌, ◌≤◌, [], OnOk, OnErr, IsErrOf};
ghost use Rattle.std.specs.Io.KnownBytes.{Appends};
ghost use Rattle.fab_base.specs.Faults.{Rose};
ghost use Rattle.fab_base.specs.declared.outside.traits.SinkError.TheVariants.{Failed};
ghost use Rattle.fab_front.specs.Reading.{WritesFront};

use fab_base::{Sink, SinkError};

/// Writes all of a text, or some front of it. That a sink takes nothing is its fault.
pub fn write_all<K: Sink>(sink: &mut K, text: &[u8]) -> Result<(), SinkError>
    ensures all { OnOk result (Appends (K.written sink.old) (K.written sink.new) text.now) }
    ensures front { OnErr result (WritesFront (K.written sink.old) (K.written sink.new) text.now) }
    ensures some { OnErr result (text.now ≢ []) }
    ensures later { K.faults sink.old ≤ K.faults sink.new }
    ensures failed { IsErrOf result Failed → Rose (K.faults sink.old) (K.faults sink.new) }
    ensures unfailed { (IsErrOf result Failed → ⊥) → K.faults sink.new ≡ K.faults sink.old }
{
    let mut rest = text;
    while !rest.is_empty() {
        let count = sink.write(rest)?;
        if count == 0 {
            return Err(SinkError::Failed);
        }
        rest = &rest[count..];
    }
    Ok(())
}
