//! How runs end: behind a run that is over no request is open, and where no node is hostile and none
//! crashes, nobody waits in vain. The functions do nothing: their contracts are the laws.
#![tactic(auto)]

mod laws;

pub use laws::{bundles_are_answered, bundles_end, ended_requests_have_outcomes, nobody_is_silent};
