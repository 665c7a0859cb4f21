//! Whether a bundle's declassifications are robust, and what commits make of what some nodes can't
//! have influenced, from these objects and endorsed values alone.
#![tactic(auto)]

mod endorsing;
mod error;
mod guards;
mod replaying;

pub use endorsing::endorsed;
pub use error::RobustError;
pub use guards::robust;
pub use replaying::trusted_replay;
