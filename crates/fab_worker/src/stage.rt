//! What a worker is at.

use fab_base::Oid;
use fab_commit::Coordinator;
use fab_protocol::Parts;

/// What a worker is at, with what it keeps for it: the object that it fetches; or the coordinator of
/// an attempt, with its parts.
#[derive(Debug, Drop)]
pub(crate) enum Stage {
    Idle,
    Evaluating,
    Fetching(Oid),
    Preparing {
        coordinator: Coordinator,
        parts: Parts,
    },
}

/// What a worker is at.
#[derive(Clone, Copy, Debug, PartialEq, Eq)]
pub enum WorkerState {
    Idle,
    Evaluating,
    Fetching(Oid),
    Preparing,
}
