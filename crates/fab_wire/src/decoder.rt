//! Messages, read.

ghost use Rattle.std.specs.Prelude.{IfOk};
ghost use Rattle.fab_base.specs.MessageSpelling.{IsReadAs};
ghost use Rattle.fab_wire.specs.Decoding.{AnswersMessage, AnswersReading, RefusesRightly};
ghost use Rattle.fab_wire.specs.Reading.{read_message};

use crate::error::DecodeError;
use crate::messages::whole_of;
use crate::stop::Stop;
use fab_base::Message;
use std::alloc::Global;

/// The most bytes that are decoded.
const BYTE_LIMIT: usize = 131_072;

/// The message that the bytes spell. More than 131,072 bytes are refused at 131,072.
pub fn decode(alloc: Global, bytes: &[u8]) -> Result<Message, DecodeError>
    // The message has these bytes as its spelling, and they are few enough.
    ensures found { IfOk result (λ m. IsReadAs bytes.now m) }
    // Whatever message they are the spelling of is answered, unless memory runs out.
    ensures only { AnswersReading bytes.now result }
    // `Bad` comes only where they are read as nothing, and its place is the length of their longest
    // front that begins some spelling.
    ensures bad { RefusesRightly bytes.now result }
    // The same as a function.
    ensures read { AnswersMessage result (read_message bytes.now) }
{
    if bytes.len() > BYTE_LIMIT {
        return Err(DecodeError::Bad { at: 131_072 });
    }
    match whole_of(alloc, bytes) {
        Ok(message) => Ok(message),
        Err(Stop::Memory) => Err(DecodeError::Memory),
        Err(Stop::Bad { left }) => Err(DecodeError::Bad {
            at: (bytes.len() - left) as u32,
        }),
    }
}
