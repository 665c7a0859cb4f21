//! The erased meaning, and that erasing agrees with what is done, by definitions and laws.
#![tactic(auto)]

mod laws;

pub use laws::{erasing_agrees, everything_seen};
