//! What becomes of a run where a call of a journal failed in an event, in the place of a cut before its first
//! byte. This is a law, the contract of a call that does nothing.
#![tactic(auto)]

mod laws;

pub use laws::failures_keep_the_run;
