//! The commits of a worker.
ghost use Rattle.std.specs.Prelude.{◌≡◌, ◌==◌, ◌&&◌, ◌++◌, ◌∷◌, [], map, IfOk, OnOk, if◌then◌else◌};
ghost use Rattle.std.specs.List.{filter, flat_map, list_any};
ghost use Rattle.fab_base.specs.declared.message.Message.TheVariants.{Commit};
ghost use Rattle.fab_protocol.specs.Versions.{is_tid};
ghost use Rattle.fab_release.specs.Replay.{leaves_at};
ghost use Rattle.fab_release.specs.Sights.{Public, Sight};
ghost use Rattle.fab_sent.specs.Messages.{all_spelled};
ghost use Rattle.fab_world.specs.Workers.{is_in, to_all};
ghost use Rattle.fab_known.specs.Commits.{commitment_of};

use crate::names::is_one_tid;
use fab_base::{Message, NoMemory, Object, Oid, Seq, Tid};
use fab_parts::add_all;
use fab_sent::Sends;
use std::alloc::Global;
use std::marker::Model;

/// An object with a version.
type Row = (Oid, u32, Object);

/// A commit: its attempt, the stores of the set that take part, and what it leaves of seen objects
/// at the other stores.
#[derive(Drop)]
pub(crate) struct Commitment {
    tid: Tid,
    stores: Seq<u16>,
    leaves: Seq<Row>,
}

/// The commits of a worker outside the set, in order. What is asked of an attempt is sought among all
/// of them.
pub struct Commits {
    commits: Seq<Commitment>,
}

impl Drop for Commits {
    fn drop(self) {
        let Commits { commits } = self;
    }
}

impl Model for Commits {
    ghost use Rattle.std.specs.Prelude.{List, map};
    ghost use Rattle.fab_release.specs.Replay.{Commitment as AnyCommitment};
    ghost use Rattle.fab_known.specs.Commits.{commitment_of};

    ghost Value = { List AnyCommitment };

    ghost view = { λ c. map commitment_of c.commits };
}

impl Commits {
    /// No commits.
    pub fn none(alloc: Global) -> Commits
        ensures { result ≡ [] }
    {
        Commits {
            commits: Seq::new(alloc),
        }
    }

    /// One commit more, of an attempt in which these stores of the set took part, and which leaves these
    /// objects.
    pub fn add(
        &mut self,
        tid: Tid,
        stores: Seq<u16>,
        leaves: Seq<(Oid, u32, Object)>,
    ) -> Result<(), NoMemory>
        ensures { OnOk result (self.new ≡ self.old ++ record { tid = tid; stores = stores; leaves = leaves } ∷ []) }
    {
        self.commits.push(Commitment {
            tid,
            stores,
            leaves,
        })?;
        Ok(())
    }

    /// Whether one of them is of this attempt, and this store took part.
    pub fn has(&self, store: u16, tid: Tid) -> bool
        ensures { result ≡ list_any (λ c. is_tid c.tid tid && is_in store c.stores) self.now }
    {
        has_commit_at(self.commits.as_slice(), store, tid)
    }

    /// What an attempt leaves at a store.
    pub fn leaves_at(
        &self,
        alloc: Global,
        store: u16,
        tid: Tid,
    ) -> Result<Seq<(Oid, u32, Object)>, NoMemory>
        ensures { IfOk result (λ rows. (sight : Sight) (P : Public) → rows ≡ leaves_at sight P store tid self.now) }
    {
        leaves_at(alloc, self.commits.as_slice(), store, tid)
    }

    /// The Commit of each again, in order.
    pub fn again(&self, alloc: Global) -> Result<Sends, NoMemory>
        ensures { IfOk result (λ sent. sent ≡ all_spelled (flat_map (λ c. to_all c.stores (Commit c.tid)) self.now)) }
    {
        again(alloc, self.commits.as_slice())
    }
}

/// Whether a commit is of this attempt, and this store takes part.
fn is_commit_at(commit: &Commitment, store: u16, tid: Tid) -> bool
    ensures { result ≡ (is_tid commit.now.tid tid && is_in store commit.now.stores) }
{
    is_one_tid(commit.tid, tid) && commit.stores.as_slice().contains(&store)
}

/// Whether one of these commits is of this attempt, and this store takes part.
fn has_commit_at(commits: &[Commitment], store: u16, tid: Tid) -> bool
    ensures { result ≡ list_any (λ c. is_tid c.tid tid && is_in store c.stores) commits.now }
{
    commits
        .iter()
        .any(|commit| is_commit_at(commit, store, tid))
}

/// Those of these rows that are at a store, behind others.
fn add_at_store(alloc: Global, all: &mut Seq<Row>, rows: &[Row], store: u16) -> Result<(), NoMemory>
    ensures { OnOk result (all.new ≡ all.old ++ filter (λ row. row.0.store == store) rows.now) }
{
    for row in rows {
        if row.0.store == store {
            all.push((row.0, row.1, row.2.copy(alloc)?))?;
        }
    }
    Ok(())
}

/// What a commit leaves at a store, if it is of this attempt, behind other rows.
fn add_left(
    alloc: Global,
    all: &mut Seq<Row>,
    commit: &Commitment,
    store: u16,
    tid: Tid,
) -> Result<(), NoMemory>
    ensures { OnOk result (all.new ≡ all.old ++ (if is_tid commit.now.tid tid then filter (λ row. row.0.store == store) commit.now.leaves else [])) }
{
    if is_one_tid(commit.tid, tid) {
        add_at_store(alloc, all, commit.leaves.as_slice(), store)?;
    }
    Ok(())
}

/// What an attempt leaves at a store.
fn leaves_at(
    alloc: Global,
    commits: &[Commitment],
    store: u16,
    tid: Tid,
) -> Result<Seq<Row>, NoMemory>
    ensures { IfOk result (λ rows. (sight : Sight) (P : Public) → rows ≡ leaves_at sight P store tid (map commitment_of commits.now)) }
{
    let mut rows = Seq::new(alloc);
    for commit in commits {
        add_left(alloc, &mut rows, commit, store, tid)?;
    }
    Ok(rows)
}

/// The Commit of each of these again, in order.
#[tactic(auto, using(crate::proofs::Messaging::commits_more))]
fn again(alloc: Global, commits: &[Commitment]) -> Result<Sends, NoMemory>
    ensures { IfOk result (λ sent. sent ≡ all_spelled (flat_map (λ c. to_all c.stores (Commit c.tid)) (map commitment_of commits.now))) }
{
    let mut sends = Seq::new(alloc);
    for commit in commits {
        let message = Message::Commit { tid: commit.tid };
        add_all(alloc, &mut sends, commit.stores.as_slice(), &message)?;
    }
    Ok(sends)
}
