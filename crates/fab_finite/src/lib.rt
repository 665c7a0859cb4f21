//! Runs that keep crash lines are finite: how long one can be.
#![tactic(auto)]

mod laws;

pub use laws::runs_end;
