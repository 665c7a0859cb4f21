//! The changes of a heap since the first heap that is saved, by which they can be undone.
ghost use Rattle.std.specs.Prelude.{◌≡◌, ◌+◌, ◌<◌, ◌≤◌, length, take, drop, vec_len, vec_capacity, OnOk};
ghost use Rattle.fab_nested.specs.Logs.{before_all, heap_of, noted_change};

use crate::objects::Objects;
use fab_base::{NoMemory, Object, Oid, Value};

/// A change of a heap, with what undoes it: a field of an object that was changed before was written,
/// with what it held; an object was written for the first time; one was made; or one was made in the
/// place of one that was written.
#[derive(Drop)]
pub(crate) enum Change {
    Wrote { oid: Oid, field: u16, old: Value },
    Joined { oid: Oid },
    Made { oid: Oid },
    Remade { oid: Oid, old: Object },
}

/// Makes room for a change, where there is a mark to which it may be undone.
pub(crate) fn make_room(log: &mut Vec<Change>, marks: &[usize]) -> Result<(), NoMemory>
    ensures items { log.new.items ≡ log.old.items }
    ensures room { OnOk result (0 < length marks.now → vec_len log.new + 1 ≤ vec_capacity log.new) }
{
    if !marks.is_empty() {
        log.reserve(1)?;
    }
    Ok(())
}

/// Notes a change for which there is room, where there is a mark to which it may be undone.
pub(crate) fn note(log: &mut Vec<Change>, marks: &[usize], change: Change)
    requires { 0 < length marks.now → vec_len log.old + 1 ≤ vec_capacity log.old }
    ensures { log.new.items ≡ noted_change marks.now change log.old.items }
{
    if !marks.is_empty() && log.push(change).is_err() {
        unreachable!();
    }
}

/// Undoes the changes since a mark, the last one first.
pub(crate) fn undo_to(objects: &mut Objects, log: &mut Vec<Change>, mark: usize)
    ensures heap { heap_of objects.new ≡ before_all (drop mark log.old.items) (heap_of objects.old) }
    ensures log { log.new.items ≡ take mark log.old.items }
{
    while log.len() > mark {
        if let Some(change) = log.pop() {
            objects.undo(change);
        }
    }
}
