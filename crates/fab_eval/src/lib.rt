//! The evaluator of requests: a method runs over the objects that were answered for it.
#![tactic(auto)]

mod act;
mod done;
mod expressions;
mod found;
mod job;
mod plain;
mod turn;
mod whole;

pub use done::Done;
pub use job::{EvalRefused, Job, Outcome, copy_of_request};
pub use plain::{Plain, locals_at_start};
pub use turn::{Paused, PausedRefused, Turn, start};
pub use whole::evaluate;
