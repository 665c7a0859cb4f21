//! A walk over a run's commits, from one number of them to the next.
ghost use Rattle.std.specs.Prelude.{◌≡◌, ◌≤◌, length, IfOk, OnOk};
ghost use Rattle.std.specs.List.{fold};
ghost use Rattle.fab_base.specs.FlatMap.{get};
ghost use Rattle.fab_rights.specs.Computed.{has_bit};
ghost use Rattle.fab_serial.specs.Replays.{behind};
ghost use Rattle.fab_reads.specs.Reads.{fields_of};
ghost use Rattle.fab_reads.specs.Walks.{map_after};

use fab_base::{NoMemory, Oid, Value};
use fab_map::ObjectMap;
use fab_net::Commit;
use fab_serial::redo;
use fab_tree::resolved::Resolved;
use std::alloc::Global;

/// The values of the object of a name, if it is there.
pub(crate) fn values_in(map: &ObjectMap, oid: Oid) -> &[Value]
    ensures { result.now ≡ fields_of (get map.now oid) }
{
    match map.get(oid) {
        Some(object) => object.fields.as_slice(),
        None => [].as_slice(),
    }
}

/// These commits more, done again one after the other.
fn go_on(
    alloc: Global,
    program: &Resolved,
    classes: u64,
    map: &mut ObjectMap,
    commits: &[Commit],
) -> Result<(), NoMemory>
    ensures { OnOk result (map.new ≡ fold (behind program.now (has_bit classes)) map.old commits.now) }
{
    let mut rest = commits;
    while let Some((commit, after)) = rest.split_first() {
        redo(alloc, program, classes, map, commit)?;
        rest = after;
    }
    Ok(())
}

/// From the map behind the first so many commits to the one behind the first `count`, or behind all where there are fewer. How many
/// these are.
pub(crate) fn go_to(
    alloc: Global,
    program: &Resolved,
    classes: u64,
    commits: &[Commit],
    map: &mut ObjectMap,
    gone: usize,
    count: usize,
) -> Result<usize, NoMemory>
    requires there { gone ≤ length commits.now }
    requires later { gone ≤ count }
    requires here { map.old ≡ map_after program.now (has_bit classes) commits.now gone }
    ensures there { IfOk result (λ at. (at ≤ length commits.now) × (at ≤ count)) }
    ensures same { IfOk result (λ at. map_after program.now (has_bit classes) commits.now at ≡ map_after program.now (has_bit classes) commits.now count) }
    ensures here { OnOk result (map.new ≡ map_after program.now (has_bit classes) commits.now count) }
{
    if count > commits.len() {
        go_on(alloc, program, classes, map, &commits[gone..])?;
        return Ok(commits.len());
    }
    go_on(alloc, program, classes, map, &commits[gone..count])?;
    Ok(count)
}
