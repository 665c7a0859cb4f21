//! Finds held transactions by their tids and by the names that they have, each by the number under which
//! it is held.
ghost use Rattle.std.specs.Prelude.{◌≡◌, ℕ, false, [], None, IsSome, IfSome, IfNone, MatchOption, OnOk, OnErr};
ghost use Rattle.std.specs.BTreeMap.{get};
ghost use Rattle.fab_base.specs.declared.object.Tid.{Tid as AnyTid};
ghost use Rattle.fab_locks.specs.Indexes.{has, names_for, tid_cmp, IsLeast, MayPut, Put, Taken};

use crate::names::{first_number, put_changed, put_named, take_changed, take_named};
use fab_base::{Items, NoMemory, Oid, Tid};
use std::alloc::Global;
use std::collections::{BTreeMap, BTreeSet};

/// The number of each tid; each name that a transaction has, with its number; and the same of the names
/// that it writes or creates, so that one that reads is not barred by walking over others that read.
#[derive(Debug)]
pub(crate) struct Index {
    places: BTreeMap<Tid, u64>,
    named: BTreeSet<(Oid, u64)>,
    changed: BTreeSet<(Oid, u64)>,
}

impl Drop for Index {
    fn drop(self) {
        let Index {
            places,
            named,
            changed,
        } = self;
    }
}

impl Index {
    /// Nothing is found. It takes no memory.
    pub(crate) fn new(alloc: Global) -> Index
        ensures places { result.places.entries ≡ [] }
        ensures named { result.named.keys ≡ [] }
        ensures changed { result.changed.keys ≡ [] }
    {
        Index {
            places: BTreeMap::new(alloc),
            named: BTreeSet::new(alloc),
            changed: BTreeSet::new(alloc),
        }
    }

    /// The number of a tid.
    pub(crate) fn number_of(&self, tid: Tid) -> Option<u64>
        ensures { result ≡ get tid_cmp self.now.places tid }
    {
        self.places.get(&tid).copied()
    }

    /// The first tid of a worker.
    pub(crate) fn first_of(&self, worker: u16) -> Option<Tid>
        ensures worker { IfSome result (λ t. t.worker ≡ worker) }
        ensures there { IfSome result (λ t. IsSome (get tid_cmp self.now.places t)) }
        ensures none { IfNone result ((t : AnyTid) → t.worker ≡ worker → get tid_cmp self.now.places t ≡ None) }
    {
        let least = Tid {
            worker,
            boot: 0,
            number: 0,
        };
        let (tid, _) = self.places.range(least..).next()?;
        if tid.worker == worker {
            Some(*tid)
        } else {
            None
        }
    }

    /// The least number of those that bar a name to one that reads it, or that writes or creates it.
    pub(crate) fn first_with(&self, oid: Oid, writing: bool) -> Option<u64>
        ensures { MatchOption result ((n : ℕ) → has (names_for writing self.now) oid n ≡ false) (IsLeast (has (names_for writing self.now) oid)) }
    {
        if writing {
            first_number(&self.named, oid)
        } else {
            first_number(&self.changed, oid)
        }
    }

    /// Puts a transaction under a number. Where there is no memory, it isn't there afterwards.
    pub(crate) fn put(&mut self, tid: Tid, items: &Items, number: u64) -> Result<(), NoMemory>
        ensures ok { OnOk result (Put tid items.now number self.old self.new) }
        ensures err { OnErr result (Taken tid items.now number self.old self.new) }
    {
        match self.put_in_part(tid, items, number) {
            Ok(()) => Ok(()),
            Err(none) => {
                self.take(tid, items, number);
                Err(none)
            }
        }
    }

    /// Puts a transaction under a number. Without memory some of its names may have been put.
    fn put_in_part(&mut self, tid: Tid, items: &Items, number: u64) -> Result<(), NoMemory>
        ensures ok { OnOk result (Put tid items.now number self.old self.new) }
        ensures err { OnErr result (MayPut items.now number self.old self.new) }
    {
        put_named(&mut self.named, items, number)?;
        put_changed(&mut self.changed, items, number)?;
        self.places.insert(tid, number)?;
        Ok(())
    }

    /// Takes a transaction out. It takes no memory.
    pub(crate) fn take(&mut self, tid: Tid, items: &Items, number: u64)
        ensures { Taken tid items.now number self.old self.new }
    {
        take_named(&mut self.named, items, number);
        take_changed(&mut self.changed, items, number);
        self.places.remove(&tid);
    }
}
