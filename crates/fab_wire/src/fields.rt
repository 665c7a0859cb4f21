//! The fields, read from the front of some bytes.

ghost use Rattle.fab_wire.specs.Reading.{Gives, tid_at, oid_at, value_at};

use crate::numbers::{byte_of, u16_of, u32_of};
use crate::stop::Stop;
use fab_base::{Oid, Tid, Value};

/// The transaction's name in the first 10 bytes, and the bytes after it.
#[tactic(auto, unfolding(crate::specs::Reading::tid_at))]
pub fn tid_of(bytes: &[u8]) -> Result<(Tid, &[u8]), Stop>
    ensures { Gives (λ x. (x.0, x.1.now)) result (tid_at bytes.now) }
{
    let (worker, rest) = u16_of(bytes)?;
    let (boot, rest) = u32_of(rest)?;
    let (number, rest) = u32_of(rest)?;
    let tid = Tid {
        worker,
        boot,
        number,
    };
    Ok((tid, rest))
}

/// The object's name in the first 18 bytes, and the bytes after it.
#[tactic(auto, unfolding(crate::specs::Reading::oid_at))]
pub fn oid_of(bytes: &[u8]) -> Result<(Oid, &[u8]), Stop>
    ensures { Gives (λ x. (x.0, x.1.now)) result (oid_at bytes.now) }
{
    let (store, rest) = u16_of(bytes)?;
    let (class, rest) = u16_of(rest)?;
    let (worker, rest) = u16_of(rest)?;
    let (boot, rest) = u32_of(rest)?;
    let (number, rest) = u32_of(rest)?;
    let (site, rest) = u16_of(rest)?;
    let (index, rest) = u16_of(rest)?;
    let oid = Oid {
        store,
        class,
        worker,
        boot,
        number,
        site,
        index,
    };
    Ok((oid, rest))
}

/// The value at the front, and the bytes after it: tag 0 and four bytes of two's complement, tag 1 for
/// null, or tag 2 and an object's name.
#[tactic(auto, unfolding(crate::specs::Reading::value_at))]
pub fn value_of(bytes: &[u8]) -> Result<(Value, &[u8]), Stop>
    ensures { Gives (λ x. (x.0, x.1.now)) result (value_at bytes.now) }
{
    let (tag, rest) = byte_of(bytes, 0, 2)?;
    match tag {
        0 => {
            let (number, rest) = u32_of(rest)?;
            Ok((Value::Int(number.cast_signed()), rest))
        }
        1 => Ok((Value::Null, rest)),
        _ => {
            let (oid, rest) = oid_of(rest)?;
            Ok((Value::Ref(oid), rest))
        }
    }
}
