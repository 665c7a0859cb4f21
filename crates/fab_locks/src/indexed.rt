//! Held transactions in the order of holding, with indexes that find them.
ghost use Rattle.std.specs.Prelude.{◌≡◌, ◌++◌, ◌∷◌, ◌==◌, ◌<◌, not, [], IsTrue, IsFalse, IfOk, IfErr, IfSome, IfNone, OnOk, OnErr, MatchOption};
ghost use Rattle.std.specs.List.{filter, All};
ghost use Rattle.std.specs.BTreeMap.{keys, values};
ghost use Rattle.fab_protocol.specs.Stores.{prepared_as, without};
ghost use Rattle.fab_locks.specs.Conflicts.{holds_tid, first_barring};

use crate::index::Index;
use fab_base::{Items, Oid, Tid};
use std::alloc::Global;
use std::collections::BTreeMap;
use std::collections::btree_map::Values;
use std::marker::Model;

/// Transactions by numbers that rise from one to the next that is held, so that freeing one moves no other.
#[derive(Debug)]
pub(crate) struct Indexed {
    held: BTreeMap<u64, (Tid, Items)>,
    index: Index,
}

impl Drop for Indexed {
    fn drop(self) {
        let Indexed { held, index } = self;
    }
}

impl Model for Indexed {
    ghost use Rattle.std.specs.Prelude.{List};
    ghost use Rattle.std.specs.BTreeMap.{values};
    ghost use Rattle.fab_protocol.specs.Stores.{Prepared};
    ghost use Rattle.fab_locks.specs.Indexes.{IsIndexed};

    ghost Value = { List Prepared };

    ghost view = { λ i. values i.held };

    ghost invariant = { λ i. IsIndexed i.held.entries i.index };
}

impl Indexed {
    /// Nothing is held. It takes no memory.
    pub(crate) fn new(alloc: Global) -> Indexed
        ensures { result ≡ [] }
    {
        Indexed {
            held: BTreeMap::new(alloc),
            index: Index::new(alloc),
        }
    }

    /// Holds one transaction more, as the last. Without memory its items come back.
    pub(crate) fn add(&mut self, tid: Tid, items: Items) -> Result<(), Items>
        requires absent { IsFalse (holds_tid tid self.old) }
        ensures ok { OnOk result (self.new ≡ self.old ++ (tid, items) ∷ []) }
        ensures err { OnErr result (self.new ≡ self.old) }
        ensures back { IfErr result (λ back. back ≡ items) }
    {
        let Some(number) = next_number(&self.held) else {
            return Err(items);
        };
        match self.index.put(tid, &items, number) {
            Err(_) => Err(items),
            Ok(()) => match self.held.insert(number, (tid, items)) {
                Ok(_) => Ok(()),
                Err(refused) => {
                    let (_, (_, items)) = refused.value;
                    self.index.take(tid, &items, number);
                    Err(items)
                }
            },
        }
    }

    /// The first transaction that bars a name to one that reads it, or that writes or creates it.
    pub(crate) fn conflict(&self, oid: Oid, writing: bool) -> Option<Tid>
        ensures { result ≡ first_barring oid writing self.now }
    {
        let number = self.index.first_with(oid, writing)?;
        match self.held.get(&number) {
            Some(transaction) => Some(transaction.0),
            None => unreachable!(),
        }
    }

    /// Lets a transaction go, and gives back its items. It takes no memory.
    pub(crate) fn free(&mut self, tid: Tid) -> Option<Items>
        ensures items { MatchOption result (prepared_as tid self.old ≡ []) (λ items. prepared_as tid self.old ≡ (tid, items) ∷ []) }
        ensures held { self.new ≡ without tid self.old }
    {
        let number = self.index.number_of(tid)?;
        match self.held.remove(&number) {
            Some((_, items)) => {
                self.index.take(tid, &items, number);
                Some(items)
            }
            None => unreachable!(),
        }
    }

    /// Lets all transactions of a worker go. It takes no memory.
    pub(crate) fn free_all(&mut self, worker: u16)
        ensures { self.new ≡ filter (λ p. not (p.0.worker == worker)) self.old }
    {
        while let Some(tid) = self.one_of(worker) {
            drop(self.free(tid));
        }
    }

    /// A transaction of a worker.
    fn one_of(&self, worker: u16) -> Option<Tid>
        ensures worker { IfSome result (λ t. t.worker ≡ worker) }
        ensures held { IfSome result (λ t. IsTrue (holds_tid t self.now)) }
        ensures none { IfNone result (filter (λ p. not (p.0.worker == worker)) self.now ≡ self.now) }
    {
        self.index.first_of(worker)
    }

    /// Whether the transaction is held.
    pub(crate) fn is_held(&self, tid: Tid) -> bool
        ensures { result ≡ holds_tid tid self.now }
    {
        self.index.number_of(tid).is_some()
    }

    /// The transactions, in the order of holding.
    pub(crate) fn all(&self) -> Values<'_, u64, (Tid, Items)>
        ensures { result ≡ self.now }
    {
        self.held.values()
    }
}

/// A number above all that are in use, if there is one.
fn next_number(held: &BTreeMap<u64, (Tid, Items)>) -> Option<u64>
    ensures { IfSome result (λ n. All (λ k. k < n) (keys held.now)) }
{
    match held.last_key_value() {
        Some((last, _)) => last.checked_add(1),
        None => Some(0),
    }
}
