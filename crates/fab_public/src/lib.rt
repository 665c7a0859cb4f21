//! What the nodes outside a set have sent into it, rebuilt from the public part of a bundle and the
//! release record alone.
#![tactic(auto)]

mod laws;
mod leaving;
mod messages;
mod setting;
mod start;
mod states;
mod steps;
mod stores;
mod watched;
mod whole;
mod workers;

pub use laws::replays_go_on;
pub use whole::public;
