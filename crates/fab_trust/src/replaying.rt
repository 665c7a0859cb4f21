//! Commits, done again from what is trusted alone.
ghost use Rattle.std.specs.Prelude.{◌≡◌, true, IfOk, OnOk};
ghost use Rattle.fab_base.specs.FlatMap.{ascends};
ghost use Rattle.fab_rights.specs.Computed.{has_bit};
ghost use Rattle.fab_trusted.specs.Trusted.{first_of, rest_of, trusted_one, trusted_replay};

use fab_base::{NoMemory, Seq, Value};
use fab_map::ObjectMap;
use fab_meaning::effect;
use fab_net::Commit;
use fab_places::Seen;
use fab_serial::{at_start, put_within, request_at};
use fab_tree::resolved::Resolved;
use std::alloc::Global;

const FUEL: u32 = 1_000_000;

/// The first of these lists of values, and those behind it; nothing, where there is none.
fn taken(lists: &[Seq<Value>]) -> (&[Value], &[Seq<Value>])
    ensures first { result.0.now ≡ first_of lists.now }
    ensures rest { result.1.now ≡ rest_of lists.now }
{
    match lists.split_first() {
        Some((first, rest)) => (first.as_slice(), rest),
        None => (&[], lists),
    }
}

/// One commit more: its request runs over the map so far with what is trusted alone, given the values
/// that its attempt endorsed. What it changes of the objects of the part is kept.
fn redo(
    alloc: Global,
    start: &Resolved,
    part: &Seen,
    map: &mut ObjectMap,
    commit: &Commit,
    given: &[Value],
) -> Result<(), NoMemory>
    requires { ascends map.old ≡ true }
    ensures { OnOk result (map.new ≡ trusted_one (has_bit part.now.labels) (has_bit part.now.classes) start.now map.old commit.now given.now) }
{
    match request_at(start, commit.worker, commit.request) {
        Some(request) => {
            let done = effect(alloc, start, part, map, given, request, commit.tid, FUEL)?;
            put_within(alloc, map, done.changed.as_slice(), part.classes)
        }
        None => Ok(()),
    }
}

/// The objects of the part behind all commits, each done again with the values that it endorsed. No answer
/// enters: of a commit it takes the worker, the request and the tid. The map so far is borrowed, so a
/// commit costs what it does and changes.
pub fn trusted_replay(
    alloc: Global,
    start: &Resolved,
    part: &Seen,
    commits: &[Commit],
    endorsed: &[Seq<Value>],
) -> Result<ObjectMap, NoMemory>
    ensures exact { IfOk result (λ map. map ≡ trusted_replay (has_bit part.now.labels) (has_bit part.now.classes) start.now commits.now endorsed.now) }
{
    let mut map = at_start(alloc, start, part.classes)?;
    let mut rest = commits;
    let mut left = endorsed;
    while let Some((commit, after)) = rest.split_first() {
        let (given, more) = taken(left);
        redo(alloc, start, part, &mut map, commit, given)?;
        rest = after;
        left = more;
    }
    Ok(map)
}
