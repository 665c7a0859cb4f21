//! What a worker's request means over what is known, as far as the set can compute it.
ghost use Rattle.std.specs.Prelude.{◌≡◌, IfOk};
ghost use Rattle.fab_base.specs.FlatMap.{map_of};
ghost use Rattle.fab_language.specs.declared.ending.Ending.TheVariants.{Ended};
ghost use Rattle.fab_language.specs.Meaning.{Meant as AnyMeant};
ghost use Rattle.fab_meaning.specs.Ends.{IsMeant};
ghost use Rattle.fab_protocol.specs.Versions.{objects_of};
ghost use Rattle.fab_world.specs.Attempts.{parts_of};
ghost use Rattle.fab_known.specs.Knowing.{parts_at_end, ran_by};

use fab_base::{NoMemory, Object, Oid, Seq, Tid, Value};
use fab_language::Ending;
use fab_map::ObjectMap;
use fab_meaning::{Meant, meaning};
use fab_parts::parts_from;
use fab_places::Seen;
use fab_protocol::Parts;
use fab_serial::request_at;
use fab_tree::resolved::Resolved;
use std::alloc::Global;

pub(crate) const FUEL: u32 = 1_000_000;

/// The objects that are known, by name.
pub(crate) fn map_of(alloc: Global, known: &[(Oid, u32, Object)]) -> Result<ObjectMap, NoMemory>
    ensures { IfOk result (λ m. m ≡ map_of (objects_of known.now)) }
{
    let mut objects = ObjectMap::new(alloc);
    for row in known {
        objects.put(row.0, row.2.copy(alloc)?)?;
    }
    Ok(objects)
}

/// What a worker's request of this number means in an attempt over what is known and given.
fn run(
    alloc: Global,
    part: &Resolved,
    seen: Seen,
    rows: &[(Oid, u32, Object)],
    given: &[Value],
    number: u32,
    tid: Tid,
) -> Result<Meant, NoMemory>
    ensures { IfOk result (λ m. IsMeant m (ran_by (record { program = part.now; seen = seen }) tid.worker number tid (map_of (objects_of rows.now)) given.now)) }
{
    let known = map_of(alloc, rows)?;
    match request_at(part, tid.worker, number) {
        Some(request) => meaning(alloc, part, &seen, &known, given, request, tid, FUEL),
        None => Ok(Meant {
            ending: Ending::Failed,
            map: known,
            written: Seq::new(alloc),
            made: Seq::new(alloc),
            touches: Seq::new(alloc),
            downs: Seq::new(alloc),
        }),
    }
}

/// The parts of what a request that ended means over what is known.
fn parts_of(
    alloc: Global,
    known: &[(Oid, u32, Object)],
    value: Option<Value>,
    meant: &Meant,
) -> Result<Parts, NoMemory>
    ensures { IfOk result (λ parts. (what : AnyMeant) → IsMeant meant.now what → what.ending ≡ Ended value → parts ≡ parts_of known.now what) }
{
    let touches = meant.touches.as_slice();
    let written = meant.written.as_slice();
    let made = meant.made.as_slice();
    let objects = meant.map.rows();
    parts_from(alloc, known, value, touches, written, made, objects)
}

/// The parts of an attempt over what is known and given, if the worker's request of this number ends in
/// it.
pub(crate) fn parts_at_end(
    alloc: Global,
    part: &Resolved,
    seen: Seen,
    rows: &[(Oid, u32, Object)],
    given: &[Value],
    number: u32,
    tid: Tid,
) -> Result<Option<Parts>, NoMemory>
    ensures { IfOk result (λ parts. parts ≡ parts_at_end rows.now (ran_by (record { program = part.now; seen = seen }) tid.worker number tid (map_of (objects_of rows.now)) given.now)) }
{
    let meant = run(alloc, part, seen, rows, given, number, tid)?;
    match meant.ending {
        Ending::Ended(value) => Ok(Some(parts_of(alloc, rows, value, &meant)?)),
        _ => Ok(None),
    }
}
