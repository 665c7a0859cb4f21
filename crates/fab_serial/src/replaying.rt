//! Commits, done again one after the other.
ghost use Rattle.std.specs.Prelude.{◌≡◌, IfOk, OnOk};
ghost use Rattle.fab_base.specs.FlatMap.{FlatMap, put_all};
ghost use Rattle.fab_language.specs.Meaning.{meaning as what_is_meant};
ghost use Rattle.fab_meaning.specs.Ends.{AreChanges};
ghost use Rattle.fab_protocol.specs.Versions.{objects_of};
ghost use Rattle.fab_rights.specs.Computed.{has_bit};
ghost use Rattle.fab_rights.specs.declared.rights.Rights.{Rights};
ghost use Rattle.fab_settings.specs.Settings.{setting_of};
ghost use Rattle.fab_world.specs.Serial.{outside, serial_replay};
ghost use Rattle.fab_serial.specs.Replays.{behind, left_by as what_is_left};

use crate::objects::{are_within, at_start, beside, put_within};
use crate::requests::request_at;
use fab_base::NoMemory;
use fab_map::ObjectMap;
use fab_meaning::{Changes, plain_effect};
use fab_net::Commit;
use fab_tree::resolved::{Request, Resolved};
use std::alloc::Global;

const FUEL: u32 = 1_000_000;

/// The objects of these classes behind all commits. Each commit's request runs again over the map so
/// far, and takes the objects of other classes from its answers; only what it changes in these classes
/// is kept.
pub fn replay(
    alloc: Global,
    start: &Resolved,
    classes: u64,
    commits: &[Commit],
) -> Result<ObjectMap, NoMemory>
    ensures { IfOk result (λ map. (rights : Rights) → map ≡ serial_replay (setting_of start.now rights) (has_bit classes) commits.now) }
{
    let mut map = at_start(alloc, start, classes)?;
    let mut rest = commits;
    while let Some((commit, after)) = rest.split_first() {
        redo(alloc, start, classes, &mut map, commit)?;
        rest = after;
    }
    Ok(map)
}

/// One commit more. Its request is evaluated once, and what it changed put into the map; beside that, it
/// costs a copy of the map where one of its answers is of another class.
pub fn redo(
    alloc: Global,
    start: &Resolved,
    classes: u64,
    map: &mut ObjectMap,
    commit: &Commit,
) -> Result<(), NoMemory>
    ensures { OnOk result (map.new ≡ behind start.now (has_bit classes) map.old commit.now) }
{
    match request_at(start, commit.worker, commit.request) {
        Some(request) => {
            // (a map's rows are in the order of names)
            let _ = map.rows();
            let done = done_over(alloc, start, classes, map, commit, request)?;
            put_within(alloc, map, done.changed.as_slice(), classes)
        }
        None => Ok(()),
    }
}

/// The objects of these classes that a commit leaves over the map behind the commits before it: those
/// that it wrote or made. It costs what one commit more does.
pub fn left_by(
    alloc: Global,
    start: &Resolved,
    classes: u64,
    map: &ObjectMap,
    commit: &Commit,
) -> Result<ObjectMap, NoMemory>
    ensures { IfOk result (λ left. left ≡ what_is_left start.now (has_bit classes) map.now commit.now) }
{
    let mut left = ObjectMap::new(alloc);
    match request_at(start, commit.worker, commit.request) {
        Some(request) => {
            let done = done_over(alloc, start, classes, map, commit, request)?;
            put_within(alloc, &mut left, done.changed.as_slice(), classes)?;
            Ok(left)
        }
        None => Ok(left),
    }
}

/// What a commit's request changes over the map behind the commits before it, the objects of other
/// classes taken from its answers. Where no answer is of another class, nothing stands beside the map: it
/// is borrowed, and the cost is that of what the request does. Else the map is copied once.
fn done_over(
    alloc: Global,
    start: &Resolved,
    classes: u64,
    map: &ObjectMap,
    commit: &Commit,
    request: &Request,
) -> Result<Changes, NoMemory>
    ensures { IfOk result (λ e. AreChanges e (what_is_meant start.now (put_all (outside (has_bit classes) (objects_of commit.now.answers)) map.now) request.now commit.now.tid 1000000)) }
{
    let answers = commit.answers.as_slice();
    if are_within(answers, classes) {
        plain_effect(alloc, start, map, request, commit.tid, FUEL)
    } else {
        let known = beside(alloc, map, answers, classes)?;
        plain_effect(alloc, start, &known, request, commit.tid, FUEL)
    }
}
