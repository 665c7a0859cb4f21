//! Isolation over every run of the machine, and of every accepted bundle.
#![tactic(auto)]

mod laws;

pub use laws::{are_isolated_alike, bundles_are_isolated, isolation};
