//! Entries, read from the front of some bytes.

ghost use Rattle.std.specs.Prelude.{◌≤◌};
ghost use Rattle.fab_wire.specs.Reading.{Gives};
ghost use Rattle.fab_journal.specs.EntryReading.{entry_by, entry_at};

use crate::fields::{outcome_of, result_of, stores_of};
use fab_base::Entry;
use fab_wire::{Stop, byte_of, items_of, tid_of, u16_of, u32_of};
use std::alloc::Global;

fn worker_entry(alloc: Global, kind: u8, bytes: &[u8]) -> Result<(Entry, &[u8]), Stop>
    requires low { 1 ≤ kind }
    requires high { kind ≤ 3 }
    ensures { Gives (λ x. (x.0, x.1.now)) result (entry_by kind bytes.now) }
{
    match kind {
        1 => {
            let (tid, rest) = tid_of(bytes)?;
            let (request, rest) = u32_of(rest)?;
            let (result, rest) = result_of(rest)?;
            let (stores, rest) = stores_of(alloc, rest)?;
            let entry = Entry::Decided {
                tid,
                request,
                result,
                stores,
            };
            Ok((entry, rest))
        }
        2 => {
            let (request, rest) = u32_of(bytes)?;
            let ((outcome, node), rest) = outcome_of(rest)?;
            let entry = Entry::Closed {
                request,
                outcome,
                node,
            };
            Ok((entry, rest))
        }
        _ => {
            let (boot, rest) = u32_of(bytes)?;
            Ok((Entry::Boot { boot }, rest))
        }
    }
}

fn store_entry(alloc: Global, kind: u8, bytes: &[u8]) -> Result<(Entry, &[u8]), Stop>
    requires low { 4 ≤ kind }
    requires high { kind ≤ 8 }
    ensures { Gives (λ x. (x.0, x.1.now)) result (entry_by kind bytes.now) }
{
    if kind == 8 {
        let (worker, rest) = u16_of(bytes)?;
        let (boot, rest) = u32_of(rest)?;
        return Ok((Entry::BootSeen { worker, boot }, rest));
    }
    let (tid, rest) = tid_of(bytes)?;
    match kind {
        4 => {
            let (items, rest) = items_of(alloc, rest)?;
            Ok((Entry::Prepared { tid, items }, rest))
        }
        5 => Ok((Entry::Refused { tid }, rest)),
        6 => Ok((Entry::Applied { tid }, rest)),
        _ => Ok((Entry::Released { tid }, rest)),
    }
}

#[tactic(auto, unfolding(crate::specs::EntryReading::entry_at))]
pub fn entry_of(alloc: Global, bytes: &[u8]) -> Result<(Entry, &[u8]), Stop>
    ensures { Gives (λ x. (x.0, x.1.now)) result (entry_at bytes.now) }
{
    let (kind, rest) = byte_of(bytes, 1, 8)?;
    if kind <= 3 {
        worker_entry(alloc, kind, rest)
    } else {
        store_entry(alloc, kind, rest)
    }
}
