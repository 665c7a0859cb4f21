//! What audits are for: the report of every run of an accepted bundle that a text stands for is right, and so are journals with it;
//! and of the run that a right report tells the promise holds. These are laws, the contracts of calls that do nothing.
#![tactic(auto)]

mod laws;
mod sound;

pub use laws::reports_of_runs_are_right;
pub use sound::right_reports_are_sound;
