//! What happens in a run, as data: events and the nodes that they are of, what a node does at one, how requests end, and the log.
#![tactic(auto)]

mod event;
mod note;
mod outcome;

pub use event::{Event, Inner, node_at, node_of, uncut};
pub use note::{Commit, Logged, Note, Step};
pub use outcome::{Denial, ReqOutcome};
