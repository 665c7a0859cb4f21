//! What a vote comes to.

/// What the coordinator does behind a vote: it commits, aborts, or waits for the other stores.
#[derive(Clone, Copy, Debug, PartialEq, Eq)]
pub enum Verdict {
    Commit,
    Abort,
    Wait,
}
