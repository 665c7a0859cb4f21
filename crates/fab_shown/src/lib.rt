//! What the report of a run shows has a spelling, so it is read back: in every run of an accepted bundle that a text
//! stands for.
#![tactic(auto)]

mod laws;

pub use laws::{
    commits_can_be_shown, events_can_be_shown, held_can_be_shown, outcomes_can_be_shown,
    reports_are_read_back, runs_can_be_shown,
};
