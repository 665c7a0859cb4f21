//! The state that readers see, of which there are two copies.
ghost use Rattle.std.specs.Prelude.{◌≡◌, ◌+◌, ◌<◌, ◌≤◌, [], length, IfOk, OnOk};
ghost use Rattle.fab_protocol.specs.Tables.{placed, placed_all};
ghost use Rattle.fab_protocol.specs.Versions.{name_of};
ghost use Rattle.fab_snap.specs.Commits.{object_at};
ghost use Rattle.fab_snap.specs.Shown.{commits_in};

use crate::write_set::WriteSet;
use fab_base::{NoMemory, Object, Oid, Seq};
use fab_versions::Table;
use left_right::Absorb;
use std::alloc::{AllocError, Global};
use std::snapshot::Snapshot;

/// A commit, with the list of all commits up to it, which has no bytes.
#[derive(Drop)]
pub(crate) struct Change {
    pub(crate) commit: WriteSet,
    pub(crate) all: Snapshot<Vec<WriteSet>>,
}

/// The rows after so many commits. The start and the last change have no bytes: they tell which rows
/// stood there at first, and which commits came.
#[derive(Drop)]
pub(crate) struct Snap {
    pub(crate) alloc: Global,
    pub(crate) count: u32,
    pub(crate) rows: Table,
    pub(crate) start: Snapshot<Table>,
    pub(crate) last: Option<Snapshot<Change>>,
}

impl Snap {
    /// The state before any commit.
    pub(crate) fn first(alloc: Global, rows: Table) -> Snap
        ensures count { result.count ≡ 0 }
        ensures rows { result.rows.rows ≡ rows.rows }
        ensures start { result.start.value.rows ≡ rows.rows }
        ensures last { commits_in result.last ≡ [] }
    {
        Snap {
            alloc,
            count: 0,
            start: Snapshot::of(&rows),
            rows,
            last: None,
        }
    }

    /// A copy of the object that stands under a name.
    pub(crate) fn object(&self, oid: Oid) -> Result<Option<Object>, NoMemory>
        ensures { IfOk result (λ found. found ≡ object_at oid self.now.rows.rows) }
    {
        match self.rows.get(oid) {
            Some((_, object)) => Ok(Some(object.copy(self.alloc)?)),
            None => Ok(None),
        }
    }
}

/// Copies are made first, then room for them, and then nothing can fail: so a commit is put whole or
/// not at all.
impl Absorb<Change> for Snap {
    type State = (
        u32,
        [(Oid, u32, Object); 0],
        [WriteSet; 0],
        [(Oid, u32, Object); 0],
    );

    ghost state = { λ s. (s.count, s.rows.rows, commits_in s.last, s.start.value.rows) };

    ghost applied = { λ s c. (s.0 + 1, placed_all name_of c.commit.leaves s.1, c.all.value.items, s.3) };

    fn absorb_first(&mut self, operation: &Change, _other: &Snap) -> Result<(), AllocError> {
        if self.count == u32::MAX {
            return Err(AllocError);
        }
        let WriteSet { leaves: copies } = operation.commit.copy(self.alloc)?;
        make_room(&mut self.rows, copies.len())?;
        put_all(&mut self.rows, copies);
        self.count += 1;
        self.last = Some(Snapshot::of(operation));
        Ok(())
    }

    /// The rows move out of the change, so that none is copied.
    fn absorb_second(&mut self, operation: Change, _other: &Snap) -> Result<(), Change> {
        if self.count == u32::MAX {
            return Err(operation);
        }
        if make_room(&mut self.rows, operation.commit.leaves.len()).is_err() {
            return Err(operation);
        }
        let last = Snapshot::of(&operation);
        let Change { commit, all: _all } = operation;
        let WriteSet { leaves } = commit;
        put_all(&mut self.rows, leaves);
        self.count += 1;
        self.last = Some(last);
        Ok(())
    }
}

/// Makes room for so many more rows.
fn make_room(rows: &mut Table, more: usize) -> Result<(), NoMemory>
    ensures made { OnOk result (more ≤ rows.new.spare) }
    ensures kept { rows.new.rows ≡ rows.old.rows }
{
    match u32::try_from(more) {
        Ok(more) => rows.reserve(more),
        Err(_) => Err(AllocError),
    }
}

/// Puts what a commit leaves. There is room, so it takes no memory and can't fail.
fn put_all(rows: &mut Table, leaves: Seq<(Oid, u32, Object)>)
    requires { length leaves ≤ rows.old.spare }
    ensures { rows.new.rows ≡ placed_all name_of leaves rows.old.rows }
{
    for leaf in leaves.into_vec() {
        put_one(rows, leaf);
    }
}

/// Puts a row for which there is room.
fn put_one(rows: &mut Table, leaf: (Oid, u32, Object))
    requires { 0 < rows.old.spare }
    ensures rows { rows.new.rows ≡ placed name_of leaf rows.old.rows }
    ensures spare { rows.old.spare ≤ rows.new.spare + 1 }
{
    let (oid, version, object) = leaf;
    match rows.put(oid, version, object) {
        Ok(()) => {}
        Err(_) => unreachable!(),
    }
}
