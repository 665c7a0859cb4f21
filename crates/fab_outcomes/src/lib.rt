//! How requests end, and why: of each outcome the event of the run that is its cause.
#![tactic(auto)]

mod laws;

pub use laws::{
    bundles_have_causes, honest_stores_are_well_formed, outcomes_are_of_sessions,
    outcomes_have_causes, outcomes_stay, tries_are_counted,
};
