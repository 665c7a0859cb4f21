//! What a plan makes of an attempt.

use fab_base::{Object, Oid};
use fab_cache::NewCaches;
use fab_commit::Coordinator;
use fab_protocol::Parts;

/// How many touches and downgrades of an attempt were noted.
pub(crate) type Told = (usize, usize);

/// What a plan makes of an attempt: nothing; an answer from a store or from the cache; a fetch; a
/// two-phase commit, and a vote in it; the end, with a commit or without, of a try or of the request.
#[derive(Drop)]
pub(crate) enum Change {
    Nothing,
    Answered((Oid, u32, Object)),
    Found((Oid, u32, Object), Told),
    Fetches(Oid, Told),
    Prepares(Coordinator, Parts, Told),
    Voted(u16),
    Commits(NewCaches),
    TryEnds,
    Closes,
}
