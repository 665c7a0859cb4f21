//! What the exchange answers.

use fab_eval::Job;

/// What a turn of a node came to: an event of it came; its job is to be evaluated; it waits for other nodes; or all is over.
#[derive(Drop)]
pub enum Turn {
    Acted,
    Evaluate(Job),
    Wait,
    Over,
}

/// Whether what a job came to was taken, or wasn't, since the worker doesn't have this job any longer.
#[derive(Clone, Copy, Debug, PartialEq, Eq)]
pub enum Given {
    Taken,
    Stale,
}
