//! What a worker keeps of the commit that it asks for.
ghost use Rattle.std.specs.Prelude.{◌≡◌, ◌==◌, IfOk, OnOk, map, not};
ghost use Rattle.std.specs.List.{filter, list_any};
ghost use Rattle.fab_base.specs.JournalSpelling.{AreStores};
ghost use Rattle.fab_base.specs.MessageSpelling.{spelled};
ghost use Rattle.fab_base.specs.declared.message.Message.TheVariants.{Prepare};
ghost use Rattle.fab_protocol.specs.Parts.{KeepsParts, items_at, stores_of};
ghost use Rattle.fab_commit.specs.Coordinators.{begun, is_among, verdict, voted};

use crate::sends::{Sends, prepares};
use crate::stores::participants;
use crate::verdict::Verdict;
use fab_base::{NoMemory, Seq, Tid};
use fab_protocol::Parts;
use std::alloc::Global;
use std::marker::Model;

/// The coordinator of one attempt: the stores that take part, and which of them haven't voted yet.
#[derive(Debug, Drop)]
pub struct Coordinator {
    tid: Tid,
    stores: Seq<u16>,
    waiting: Vec<u16>,
}

impl Model for Coordinator {
    ghost use Rattle.fab_commit.specs.Coordinators.{Coordination};

    ghost Value = { Coordination };

    ghost view = { λ c. record { tid = c.tid; stores = c.stores; waiting = c.waiting.items } };
}

/// Begins the commit of an attempt: a coordinator that waits for every store that takes part, and to
/// each of them its Prepare.
#[tactic(auto, using(crate::proofs::Numbers::stores_are_few, crate::proofs::Numbers::length_stores))]
pub fn begin_prepare(
    alloc: Global,
    tid: Tid,
    parts: &Parts,
) -> Result<(Coordinator, Sends), NoMemory>
    requires parts { KeepsParts parts.now }
    ensures coordinator { IfOk result (λ r. r.0 ≡ begun tid (stores_of parts.now)) }
    ensures sends { IfOk result (λ r. r.1 ≡ map (λ s. (s, spelled (Prepare tid (items_at parts.now s)))) (stores_of parts.now)) }
    ensures participants { OnOk result (AreStores (stores_of parts.now)) }
{
    let waiting = participants(alloc, parts)?;
    let sends = prepares(alloc, tid, parts, waiting.as_slice())?;
    let stores = Seq::from_slice(alloc, waiting.as_slice())?;
    let coordinator = Coordinator {
        tid,
        stores,
        waiting,
    };
    Ok((coordinator, sends))
}

/// Whether another store than this is among these.
fn has_other(stores: &[u16], store: u16) -> bool
    ensures { result ≡ list_any (λ s. not (s == store)) stores.now }
{
    stores.iter().any(|other| *other != store)
}

/// Takes a store from those whose vote is lacking.
fn wait_no_longer(waiting: &mut Vec<u16>, store: u16)
    ensures { waiting.new.items ≡ filter (λ s. not (s == store)) waiting.old.items }
{
    waiting.retain(|other| *other != store);
}

impl Coordinator {
    /// What a vote of a store would come to.
    pub fn would_vote(&self, store: u16, yes: bool) -> Verdict
        ensures verdict { result ≡ verdict store yes self.now.waiting }
    {
        if !yes {
            Verdict::Abort
        } else if has_other(self.waiting.as_slice(), store) {
            Verdict::Wait
        } else {
            Verdict::Commit
        }
    }

    /// Takes the vote of a store, and says what it comes to. A second Yes of a store changes nothing; where nobody is
    /// waited for any more it comes to a commit again.
    pub fn vote(&mut self, store: u16, yes: bool) -> Verdict
        ensures verdict { result ≡ verdict store yes self.old.waiting }
        ensures coordinator { self.new ≡ voted store yes self.old }
    {
        let verdict = self.would_vote(store, yes);
        if yes {
            wait_no_longer(&mut self.waiting, store);
        }
        verdict
    }

    /// The attempt.
    pub fn tid(&self) -> Tid
        ensures tid { result ≡ self.now.tid }
    {
        self.tid
    }

    /// The stores that take part, in the order of numbers.
    pub fn stores(&self) -> &[u16]
        ensures stores { result.now ≡ self.now.stores }
    {
        self.stores.as_slice()
    }

    /// Whether the coordinator waits for the vote of this store.
    pub fn lacks(&self, store: u16) -> bool
        ensures lacks { result ≡ is_among store self.now.waiting }
    {
        self.waiting.contains(&store)
    }

    /// Whether this store takes part.
    pub fn takes_part(&self, store: u16) -> bool
        ensures takes_part { result ≡ is_among store self.now.stores }
    {
        self.stores.as_slice().contains(&store)
    }
}
