//! That the runs of every accepted bundle that keep its crash lines are finite.
#![tactic(auto)]

mod laws;

pub use laws::bundles_are_finite;
