//! A run by threads: each node's thread takes turns under one lock, and evaluates outside of it. What the threads leave is done by the
//! calling thread, which has a pool evaluate what several workers wait for.
//!
//! What is known of the nodes each time the lock is taken is known by the type of what lies under it: that they are those of the start
//! that the run is named by, and that what all threads count adds up to the events. So it is known of them when the threads have returned, too.
//! Nothing is known of which thread does what, or when.
//!
//! What goes from thread to thread may go there: bundles, nodes with their journals, jobs of evaluation and what they come to. Of a type
//! that leads back to itself, as a statement does, and of each type above it, the prover doesn't find this by itself. It is stated in
//! `proofs/Crossing.antt`, and a proof of a caller whose bound asks it cites that.
#![tactic(auto)]

mod alone;
mod bells;
mod bench;
mod evaluating;
mod name;
mod running;
mod shared;
mod turning;
mod types;
mod watch;

pub use alone::finish;
pub use name::RunName;
pub use running::{Finished, run_threads, run_turning};
pub use shared::{Aside, Shared};
pub use turning::Turning;
pub use watch::Rest;
