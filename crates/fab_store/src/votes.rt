//! How a store votes on a Prepare: each item is tried for the same reasons, in the same order.

ghost use Rattle.std.specs.Prelude.{◌≡◌, Some, None, [], ◌∷◌, ◌++◌, ◌||◌, ◌==◌, not, map};
ghost use Rattle.std.specs.List.{list_any};
ghost use Rattle.fab_base.specs.FlatMap.{is_among, is_same};
ghost use Rattle.fab_rights.specs.Computed.{knows, suits};
ghost use Rattle.fab_protocol.specs.Versions.{is_made_in, version_of};
ghost use Rattle.fab_protocol.specs.Stores.{Read, Write, Create, creates_in, is_out_of_order, item_name, out_of_date, reads_in, reasons_in, reasons_of, vote, writes_in};
ghost use Rattle.fab_store.specs.Refusals.{IsFirstOf, barred};

use crate::store::Store;
use fab_base::{Answer, Items, Object, Oid, Tid};
use fab_protocol::is_same_name;

/// Whether an object of this name was read.
#[tactic(auto, using(crate::proofs::Reasons::among_reads))]
fn is_read(items: &Items, oid: Oid) -> bool
    ensures { result ≡ is_among oid (map item_name (reads_in items.now)) }
{
    reads_name(items.reads.as_slice(), oid)
}

/// Whether an object of this name was read or written.
#[tactic(auto, using(crate::proofs::Reasons::among_either))]
fn is_read_or_written(items: &Items, oid: Oid) -> bool
    ensures { result ≡ is_among oid (map item_name (reads_in items.now ++ writes_in items.now)) }
{
    reads_name(items.reads.as_slice(), oid) || writes_name(items.writes.as_slice(), oid)
}

fn reads_name(reads: &[(Oid, u32)], oid: Oid) -> bool
    ensures { result ≡ list_any (λ read. is_same read.0 oid) reads.now }
{
    reads.iter().any(|read| is_same_name(read.0, oid))
}

fn writes_name(writes: &[(Oid, u32, Object)], oid: Oid) -> bool
    ensures { result ≡ list_any (λ write. is_same write.0 oid) writes.now }
{
    writes.iter().any(|write| is_same_name(write.0, oid))
}

/// Whether a name isn't above the one before it in its list.
fn is_out_of_order(before: Option<Oid>, oid: Oid) -> bool
    ensures { result ≡ is_out_of_order before oid }
{
    match before {
        Some(before) => before >= oid,
        None => false,
    }
}

impl Store {
    /// Whether a name is of another store, of no class, or out of order.
    fn is_misplaced(&self, before: Option<Oid>, oid: Oid) -> bool
        ensures { result ≡ (not (oid.store == self.now.node) || not (knows self.now.rights oid.class) || is_out_of_order before oid) }
    {
        oid.store != self.node || !self.rights.knows(oid.class) || is_out_of_order(before, oid)
    }

    /// Whether an object may stand under a name.
    fn suits(&self, oid: Oid, object: &Object) -> bool
        ensures { result ≡ suits self.now.rights oid object.now }
    {
        self.rights.well_formed(object) && object.class == oid.class
    }

    /// The current version of an object, 0 where it isn't there.
    fn version_of(&self, oid: Oid) -> u32
        ensures { result ≡ version_of self.now.shelf.rows oid }
    {
        match self.table.get(oid) {
            Some(found) => found.0,
            None => 0,
        }
    }

    /// The refusal of an object at a version: it isn't the current one, or another transaction bars it.
    fn version_refusal(&self, oid: Oid, version: u32, writing: bool) -> Option<Answer>
        ensures { IsFirstOf (out_of_date self.now.shelf.rows (Read oid version) ∷ barred oid writing self.now.shelf.prepared) result }
    {
        let current = self.version_of(oid);
        if current == 0 || version != current {
            return Some(Answer::Stale(oid, current));
        }
        self.lock(oid, writing)
    }

    /// The first prepared transaction that bars an object, if there is one.
    fn lock(&self, oid: Oid, writing: bool) -> Option<Answer>
        ensures { IsFirstOf (barred oid writing self.now.shelf.prepared) result }
    {
        match self.locks.conflict(oid, writing) {
            Some(tid) => Some(Answer::Locked(tid)),
            None => None,
        }
    }

    fn read_refusal(
        &self,
        sender: u16,
        tid: Tid,
        before: Option<Oid>,
        oid: Oid,
        version: u32,
    ) -> Option<Answer>
        ensures { IsFirstOf (reasons_of self.now.rights self.now.node sender tid self.now.shelf [] before (Read oid version)) result }
    {
        if self.is_misplaced(before, oid) {
            return Some(Answer::IllFormed(oid));
        }
        if !self.rights.may_fetch(sender, oid.class) {
            return Some(Answer::Rights(oid));
        }
        self.version_refusal(oid, version, false)
    }

    fn write_refusal(
        &self,
        sender: u16,
        tid: Tid,
        items: &Items,
        before: Option<Oid>,
        write: &(Oid, u32, Object),
    ) -> Option<Answer>
        ensures { IsFirstOf (reasons_of self.now.rights self.now.node sender tid self.now.shelf
            (map item_name (reads_in items.now)) before (Write write.now.0 write.now.1 write.now.2)) result }
    {
        let (oid, version) = (write.0, write.1);
        if self.is_misplaced(before, oid) || is_read(items, oid) || !self.suits(oid, &write.2) {
            return Some(Answer::IllFormed(oid));
        }
        let is_writer = self.rights.may_write(sender, oid.class);
        if !is_writer {
            return Some(Answer::Rights(oid));
        }
        self.version_refusal(oid, version, true)
    }

    fn create_refusal(
        &self,
        sender: u16,
        tid: Tid,
        items: &Items,
        before: Option<Oid>,
        create: &(Oid, Object),
    ) -> Option<Answer>
        ensures { IsFirstOf (reasons_of self.now.rights self.now.node sender tid self.now.shelf
            (map item_name (reads_in items.now ++ writes_in items.now)) before (Create create.now.0 create.now.1)) result }
    {
        let oid = create.0;
        let suited = self.suits(oid, &create.1) && is_made_in(tid, oid);
        if self.is_misplaced(before, oid) || is_read_or_written(items, oid) || !suited {
            return Some(Answer::IllFormed(oid));
        }
        if !self.rights.may_write(sender, oid.class) {
            return Some(Answer::Rights(oid));
        }
        if self.version_of(oid) > 0 {
            return Some(Answer::Exists(oid));
        }
        self.lock(oid, true)
    }

    fn reads_refusal(&self, sender: u16, tid: Tid, items: &Items) -> Option<Answer>
        ensures { IsFirstOf (reasons_in self.now.rights self.now.node sender tid self.now.shelf [] None (reads_in items.now)) result }
    {
        let mut before = None;
        for read in items.reads.as_slice() {
            if let Some(refusal) = self.read_refusal(sender, tid, before, read.0, read.1) {
                return Some(refusal);
            }
            before = Some(read.0);
        }
        None
    }

    fn writes_refusal(&self, sender: u16, tid: Tid, items: &Items) -> Option<Answer>
        ensures { IsFirstOf (reasons_in self.now.rights self.now.node sender tid self.now.shelf
            (map item_name (reads_in items.now)) None (writes_in items.now)) result }
    {
        let mut before = None;
        for write in items.writes.as_slice() {
            if let Some(refusal) = self.write_refusal(sender, tid, items, before, write) {
                return Some(refusal);
            }
            before = Some(write.0);
        }
        None
    }

    fn creates_refusal(&self, sender: u16, tid: Tid, items: &Items) -> Option<Answer>
        ensures { IsFirstOf (reasons_in self.now.rights self.now.node sender tid self.now.shelf
            (map item_name (reads_in items.now ++ writes_in items.now)) None (creates_in items.now)) result }
    {
        let mut before = None;
        for create in items.creates.as_slice() {
            if let Some(refusal) = self.create_refusal(sender, tid, items, before, create) {
                return Some(refusal);
            }
            before = Some(create.0);
        }
        None
    }

    /// What the store votes on the items of a new attempt: the first reason to refuse one, or Yes.
    pub(crate) fn vote(&self, sender: u16, tid: Tid, items: &Items) -> Answer
        ensures { result ≡ vote self.now.rights self.now.node sender tid items.now self.now.shelf }
    {
        if let Some(refusal) = self.reads_refusal(sender, tid, items) {
            return refusal;
        }
        if let Some(refusal) = self.writes_refusal(sender, tid, items) {
            return refusal;
        }
        match self.creates_refusal(sender, tid, items) {
            Some(refusal) => refusal,
            None => Answer::Yes,
        }
    }
}

/// Whether an attempt made the object of this name.
fn is_made_in(tid: Tid, oid: Oid) -> bool
    ensures { result ≡ is_made_in tid oid }
{
    oid.worker == tid.worker && oid.boot == tid.boot && oid.number == tid.number
}
