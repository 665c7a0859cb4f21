//! Integrity, over every run of the machine and every set of nodes: a law over definitions alone. The
//! function does nothing: its contract is the law.
#![tactic(auto)]

mod laws;

pub use laws::{integrity, nothing_is_left, runs_go_on};
