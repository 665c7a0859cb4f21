//! What the rules of names and types are checked with: the first fault so far, and the locals that
//! are known at a place.
#![tactic(auto)]

mod first;
mod known;

pub use first::{noted, noted_unless};
pub use known::{Known, Local};
