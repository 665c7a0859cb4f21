//! The fields that only journals have, read from the front of some bytes.

ghost use Rattle.std.specs.Prelude.{◌<◌};
ghost use Rattle.fab_wire.specs.Reading.{Gives};
ghost use Rattle.fab_journal.specs.EntryReading.{between_at, ascending_at, stores_at, result_at, outcome_at};

use fab_base::{Seq, Value};
use fab_wire::{Stop, byte_of, u16_of, value_of};
use std::alloc::Global;

/// A number within these bounds.
fn between_of(bytes: &[u8], low: u32, high: u32) -> Result<(u16, &[u8]), Stop>
    ensures { Gives (λ x. (x.0, x.1.now)) result (between_at low high bytes.now) }
{
    match bytes {
        [] => Err(Stop::Bad { left: 0 }),
        [first, rest @ ..] => {
            let least = *first as u32 * 256;
            if low > least + 255 || least > high {
                return Err(Stop::Bad { left: bytes.len() });
            }
            match rest {
                [] => Err(Stop::Bad { left: 0 }),
                [second, after @ ..] => {
                    let number = *first as u16 * 256 + *second as u16;
                    if low <= number as u32 && number as u32 <= high {
                        Ok((number, after))
                    } else {
                        Err(Stop::Bad { left: rest.len() })
                    }
                }
            }
        }
    }
}

/// So many numbers, each above the one before. Each leaves room for those after it.
fn ascending_of(alloc: Global, count: u16, bytes: &[u8]) -> Result<(Seq<u16>, &[u8]), Stop>
    ensures { Gives (λ x. (x.0, x.1.now)) result (ascending_at count 0 bytes.now) }
{
    let mut stores = Seq::new(alloc);
    let mut rest = bytes;
    let mut low = 0u32;
    for i in 0..count {
        let more = count - 1 - i;
        let (store, after) = between_of(rest, low, 65_535 - more as u32)?;
        stores.push(store)?;
        low = store as u32 + 1;
        rest = after;
    }
    Ok((stores, rest))
}

#[tactic(auto, unfolding(crate::specs::EntryReading::stores_at))]
pub fn stores_of(alloc: Global, bytes: &[u8]) -> Result<(Seq<u16>, &[u8]), Stop>
    ensures { Gives (λ x. (x.0, x.1.now)) result (stores_at bytes.now) }
{
    let (count, rest) = u16_of(bytes)?;
    ascending_of(alloc, count, rest)
}

#[tactic(auto, unfolding(crate::specs::EntryReading::result_at))]
pub fn result_of(bytes: &[u8]) -> Result<(Option<Value>, &[u8]), Stop>
    ensures { Gives (λ x. (x.0, x.1.now)) result (result_at bytes.now) }
{
    match bytes {
        [] => Err(Stop::Bad { left: 0 }),
        [3, rest @ ..] => Ok((None, rest)),
        [_, ..] => {
            let (value, rest) = value_of(bytes)?;
            Ok((Some(value), rest))
        }
    }
}

#[tactic(auto, unfolding(crate::specs::EntryReading::outcome_at))]
pub fn outcome_of(bytes: &[u8]) -> Result<((u8, u16), &[u8]), Stop>
    ensures { Gives (λ x. (x.0, x.1.now)) result (outcome_at bytes.now) }
{
    let (outcome, rest) = byte_of(bytes, 1, 9)?;
    let least = if 3 <= outcome && outcome <= 5 {
        0
    } else {
        65_535
    };
    let (node, rest) = between_of(rest, least, 65_535)?;
    Ok(((outcome, node), rest))
}
