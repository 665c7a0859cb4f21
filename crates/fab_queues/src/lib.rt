//! The queues between nodes: what each sends to each, in order, and how much of it has been taken.
#![tactic(auto)]

mod channel;
mod queues;

pub use channel::Channel;
pub use queues::Queues;
