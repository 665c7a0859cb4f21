//! Lists and what holds them, read from the front of some bytes.

ghost use Rattle.fab_wire.specs.Reading.{Gives, many_at, value_at, object_at, read_at, write_at, create_at, items_at};

use crate::fields::{oid_of, value_of};
use crate::numbers::{byte_of, count_of, u16_of, u32_of};
use crate::stop::Stop;
use fab_base::{Items, Object, Oid, Seq, Value};
use std::alloc::Global;

fn values_of(alloc: Global, count: u8, bytes: &[u8]) -> Result<(Seq<Value>, &[u8]), Stop>
    ensures { Gives (λ x. (x.0, x.1.now)) result (many_at value_at count bytes.now) }
{
    let mut values = Seq::new(alloc);
    let mut rest = bytes;
    for _ in 0..count {
        let (value, after) = value_of(rest)?;
        values.push(value)?;
        rest = after;
    }
    Ok((values, rest))
}

/// The object at the front, and the bytes after it: its class, the number of its fields in a byte, at
/// most 16, and the fields.
#[tactic(auto, unfolding(crate::specs::Reading::object_at))]
pub fn object_of(alloc: Global, bytes: &[u8]) -> Result<(Object, &[u8]), Stop>
    ensures { Gives (λ x. (x.0, x.1.now)) result (object_at bytes.now) }
{
    let (class, rest) = u16_of(bytes)?;
    let (count, rest) = byte_of(rest, 0, 16)?;
    let (fields, rest) = values_of(alloc, count, rest)?;
    Ok((Object { class, fields }, rest))
}

#[tactic(auto, unfolding(crate::specs::Reading::read_at))]
fn read_of(bytes: &[u8]) -> Result<((Oid, u32), &[u8]), Stop>
    ensures { Gives (λ x. (x.0, x.1.now)) result (read_at bytes.now) }
{
    let (oid, rest) = oid_of(bytes)?;
    let (version, rest) = u32_of(rest)?;
    Ok(((oid, version), rest))
}

#[tactic(auto, unfolding(crate::specs::Reading::write_at))]
fn write_of(alloc: Global, bytes: &[u8]) -> Result<((Oid, u32, Object), &[u8]), Stop>
    ensures { Gives (λ x. (x.0, x.1.now)) result (write_at bytes.now) }
{
    let (oid, rest) = oid_of(bytes)?;
    let (version, rest) = u32_of(rest)?;
    let (object, rest) = object_of(alloc, rest)?;
    Ok(((oid, version, object), rest))
}

#[tactic(auto, unfolding(crate::specs::Reading::create_at))]
fn create_of(alloc: Global, bytes: &[u8]) -> Result<((Oid, Object), &[u8]), Stop>
    ensures { Gives (λ x. (x.0, x.1.now)) result (create_at bytes.now) }
{
    let (oid, rest) = oid_of(bytes)?;
    let (object, rest) = object_of(alloc, rest)?;
    Ok(((oid, object), rest))
}

fn reads_of(alloc: Global, count: u16, bytes: &[u8]) -> Result<(Seq<(Oid, u32)>, &[u8]), Stop>
    ensures { Gives (λ x. (x.0, x.1.now)) result (many_at read_at count bytes.now) }
{
    let mut reads = Seq::new(alloc);
    let mut rest = bytes;
    for _ in 0..count {
        let (read, after) = read_of(rest)?;
        reads.push(read)?;
        rest = after;
    }
    Ok((reads, rest))
}

fn writes_of(
    alloc: Global,
    count: u16,
    bytes: &[u8],
) -> Result<(Seq<(Oid, u32, Object)>, &[u8]), Stop>
    ensures { Gives (λ x. (x.0, x.1.now)) result (many_at write_at count bytes.now) }
{
    let mut writes = Seq::new(alloc);
    let mut rest = bytes;
    for _ in 0..count {
        let (write, after) = write_of(alloc, rest)?;
        writes.push(write)?;
        rest = after;
    }
    Ok((writes, rest))
}

fn creates_of(alloc: Global, count: u16, bytes: &[u8]) -> Result<(Seq<(Oid, Object)>, &[u8]), Stop>
    ensures { Gives (λ x. (x.0, x.1.now)) result (many_at create_at count bytes.now) }
{
    let mut creates = Seq::new(alloc);
    let mut rest = bytes;
    for _ in 0..count {
        let (create, after) = create_of(alloc, rest)?;
        creates.push(create)?;
        rest = after;
    }
    Ok((creates, rest))
}

/// The items at the front, and the bytes after them: at most 1,024 reads, 256 writes and 256 creates,
/// each list behind its length in two bytes.
#[tactic(auto, unfolding(crate::specs::Reading::items_at))]
pub fn items_of(alloc: Global, bytes: &[u8]) -> Result<(Items, &[u8]), Stop>
    ensures { Gives (λ x. (x.0, x.1.now)) result (items_at bytes.now) }
{
    let (count, rest) = count_of(bytes, 4)?;
    let (reads, rest) = reads_of(alloc, count, rest)?;
    let (count, rest) = count_of(rest, 1)?;
    let (writes, rest) = writes_of(alloc, count, rest)?;
    let (count, rest) = count_of(rest, 1)?;
    let (creates, rest) = creates_of(alloc, count, rest)?;
    let items = Items {
        reads,
        writes,
        creates,
    };
    Ok((items, rest))
}
