//! Who reads beside a run.

use fab_base::{NoMemory, Object, Oid};
use fab_gates::Gate;
use fab_reads::Reading;
use fab_snap::SnapReader;
use std::alloc::Global;

/// The number by which the reader passes a gate; no node has it.
const READER: u16 = 65_535;

/// What one read saw: how many commits, and the object behind them.
pub(crate) type Seen = (u32, Option<Object>);

/// Room for what so many reads see.
pub(crate) fn room_for(alloc: Global, times: u32) -> Result<Vec<Seen>, NoMemory> {
    let mut room = Vec::new(alloc);
    room.reserve(times as usize)?;
    Ok(room)
}

/// One read, between a gate's calls.
fn read<G: Gate>(gate: &G, reader: &mut SnapReader, oid: Oid) -> Result<Seen, NoMemory> {
    gate.before(READER);
    let seen = reader.read(oid);
    gate.after(READER);
    seen
}

/// Reads so many times, and keeps what it sees, unless memory runs out.
pub(crate) fn read_all<G: Gate>(
    gate: &G,
    reader: SnapReader,
    reading: Reading,
    room: Vec<Seen>,
) -> Vec<Seen> {
    let mut reader = reader;
    let mut all = room;
    for _ in 0..reading.times {
        let Ok(seen) = read(gate, &mut reader, reading.oid) else {
            break;
        };
        if all.push(seen).is_err() {
            break;
        }
    }
    all
}
