//! What a bundle comes to whose run is told of with status 0: no request is left open. The function does nothing: its contract is the law.
#![tactic(auto)]

mod laws;

pub use laws::runs_are_complete;
