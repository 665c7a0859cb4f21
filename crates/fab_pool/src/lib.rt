//! A pool of evaluators: several jobs are evaluated beside each other by some threads.
//!
//! Jobs are handed out by their places through a channel, and stay where they are: a thread copies the one whose place it got, and brings
//! its place back with what the copy came to. A job of which nothing came back is evaluated by the calling thread, so what is known of
//! the answer rests neither on the channel nor on which thread does what.
#![tactic(auto)]

mod copies;
mod pool;
mod slot;

pub use pool::Pool;
