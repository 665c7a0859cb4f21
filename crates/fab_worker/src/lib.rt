//! A worker: attempts at its requests, fetches, caches, the two-phase commit that it coordinates, and
//! recovery.
#![tactic(auto)]

mod accepting;
mod answers;
mod change;
mod deciding;
mod ends;
mod hearing;
mod laws;
mod parts;
mod plan;
mod recovery;
mod resuming;
mod silence;
mod stage;
mod told;
mod worker;

pub use laws::{attempts_keep_their_number, kept_in_a_row};
pub use plan::WorkerPlan;
pub use stage::WorkerState;
pub use worker::Worker;
