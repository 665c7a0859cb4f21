//! What is rebuilt of nodes outside the set.

use fab_base::Oid;
use fab_cache::Caches;
use fab_known::{Commits, Known, Table};
use fab_map::ObjectMap;
use fab_protocol::Parts;
use fab_shelf::Stored;

/// What a worker is at: at rest; its evaluation goes on; it waits for an object of a store in the
/// set; it has asked for votes on these parts.
#[derive(Drop)]
pub(crate) enum Stage {
    Rests,
    Runs,
    Waits(Oid),
    Votes(Parts),
}

/// A worker outside the set: its boot, the number of its attempt, the request, what it is known to
/// know and was given, its commits in order, and the caches of the stores in the set.
#[derive(Drop)]
pub(crate) struct Watched<'a> {
    pub(crate) boot: u32,
    pub(crate) number: u32,
    pub(crate) request: u32,
    pub(crate) stage: Stage,
    pub(crate) known: Known<'a>,
    pub(crate) commits: Commits,
    pub(crate) caches: Caches,
}

/// What is rebuilt: the seen roots at stores outside the set, the workers and those stores by their
/// numbers, as far as entries have spoken of them, and the seen objects there at each version.
#[derive(Drop)]
pub(crate) struct Kept<'a> {
    pub(crate) roots: ObjectMap,
    pub(crate) workers: Vec<Watched<'a>>,
    pub(crate) stores: Vec<Stored>,
    pub(crate) table: Table,
}
