//! What the program does.
ghost use Rattle.std.specs.Prelude.{◌≡◌, ◌≢◌, ◌≤◌, ◌⊎◌, ◌++◌, List, ℕ, [], IfOk, IsErrOf, None as Nothing, Option, Some, codes};
ghost use Rattle.std.specs.Io.KnownBytes.{IsAtEnd, Keeps};
ghost use Rattle.fab_base.specs.Faults.{Rose};
ghost use Rattle.fab_front.specs.Reading.{TakesAtMost};
ghost use Rattle.fab_front.specs.declared.reading.ReadError.TheVariants.{Fault};
ghost use Rattle.fab_front.specs.declared.status.Status.TheVariants.{Memory, ReadFault, Usage, WriteFault};
ghost use Rattle.fab_drawing.specs.declared.ending.Ending.TheVariants.{Plain};
ghost use Rattle.fab_drawing.specs.Asked.{asked_by as asked_by_words};
ghost use Rattle.fab_drawing.specs.Endings.{Ends, Part, Replies};

use crate::asked::Asked;
use crate::ending::Ending;
use crate::reply::said;
use crate::words::asked_by;
use fab_base::{Seq, Sink, SinkError, Source};
use fab_front::{ReadError, Status, read_all, usage, write_all};
use std::alloc::{AllocError, Global};

/// The ending and the text to write, after reading.
fn reply<S: Source>(
    alloc: Global,
    asked: Option<Asked>,
    source: &mut S,
) -> Result<(Ending, Seq<u8>), ReadError>
    ensures given { IfOk result (λ r. Replies asked (S.left source.old) (S.left source.new) r.0 r.1) }
    ensures unread { asked ≡ Nothing → source.new ≡ source.old }
    ensures taken { TakesAtMost 4194305 (S.left source.old) (S.left source.new) }
    ensures later { S.faults source.old ≤ S.faults source.new }
    ensures failed { IsErrOf result Fault → Rose (S.faults source.old) (S.faults source.new) }
    ensures unfailed { (IsErrOf result Fault → ⊥) → S.faults source.new ≡ S.faults source.old }
{
    match asked {
        None => {
            let (status, reply) = usage(alloc)?;
            Ok((Ending::Plain(status), reply))
        }
        Some(asked) => {
            let text = read_all(alloc, source)?;
            Ok(said(alloc, &asked, &text)?)
        }
    }
}

/// Replies to what is asked, and says how it ended.
fn replied<S: Source, K: Sink>(
    alloc: Global,
    asked: Option<Asked>,
    source: &mut S,
    sink: &mut K,
) -> Ending
    ensures means { Ends asked result (S.left source.old) (S.left source.new) (K.written sink.old) (K.written sink.new) }
    ensures unread { asked ≡ Nothing → source.new ≡ source.old }
    ensures taken { TakesAtMost 4194305 (S.left source.old) (S.left source.new) }
    ensures read_fault { result ≡ Plain ReadFault → Rose (S.faults source.old) (S.faults source.new) }
    ensures read_fault_unwritten { result ≡ Plain ReadFault → sink.new ≡ sink.old }
    ensures write_fault { result ≡ Plain WriteFault → Rose (K.faults sink.old) (K.faults sink.new) }
    ensures source_faults { S.faults source.old ≤ S.faults source.new }
    ensures sink_faults { K.faults sink.old ≤ K.faults sink.new }
    ensures source_unfailed { result ≢ Plain ReadFault → S.faults source.new ≡ S.faults source.old }
    ensures sink_unfailed { result ≢ Plain WriteFault → K.faults sink.new ≡ K.faults sink.old }
{
    let (ending, text) = match reply(alloc, asked, source) {
        Ok(reply) => reply,
        Err(ReadError::Memory) => return Ending::Plain(Status::Memory),
        Err(ReadError::Fault) => return Ending::Plain(Status::ReadFault),
    };
    match write_all(sink, text.as_slice()) {
        Ok(()) => ending,
        Err(SinkError::Failed) => Ending::Plain(Status::WriteFault),
        Err(SinkError::Memory) => Ending::Plain(Status::Memory),
    }
}

/// Draws what the words ask for, and says how it ended.
///
/// The words are the names of nodes of a set, then `from K to M` for the events to be drawn; what is sent into
/// the set stands out. Where they are neither nothing is read. Of what the source has left and what the sink
/// holds the clauses speak where these tell it.
pub fn draw<S: Source, K: Sink>(
    alloc: Global,
    words: &[String],
    source: &mut S,
    sink: &mut K,
) -> Ending
    // What each ending says of what was read and of what was written.
    ensures means { Ends (asked_by_words words.now) result (S.left source.old) (S.left source.new) (K.written sink.old) (K.written sink.new) }

    // Nothing is read where the words ask for nothing, and never more than 4,194,305 bytes are.
    ensures unread { asked_by_words words.now ≡ Nothing → source.new ≡ source.old }
    ensures taken { TakesAtMost 4194305 (S.left source.old) (S.left source.new) }

    // `ReadFault` comes only where the source's faults rose, and nothing is written; `WriteFault` only where the
    // sink's did. The counts stay at each other ending, so a fault is told as one, and not as want of memory.
    ensures read_fault { result ≡ Plain ReadFault → Rose (S.faults source.old) (S.faults source.new) }
    ensures read_fault_unwritten { result ≡ Plain ReadFault → sink.new ≡ sink.old }
    ensures write_fault { result ≡ Plain WriteFault → Rose (K.faults sink.old) (K.faults sink.new) }
    ensures source_faults { S.faults source.old ≤ S.faults source.new }
    ensures sink_faults { K.faults sink.old ≤ K.faults sink.new }
    ensures source_unfailed { result ≢ Plain ReadFault → S.faults source.new ≡ S.faults source.old }
    ensures sink_unfailed { result ≢ Plain WriteFault → K.faults sink.new ≡ K.faults sink.old }
{
    match asked_by(alloc, words) {
        Ok(asked) => replied(alloc, asked, source, sink),
        Err(AllocError) => Ending::Plain(Status::Memory),
    }
}
