//! What a bundle gives its nodes: its program and the rights over its classes.
#![tactic(auto)]

mod laws;
mod setup;

pub use laws::bundles_have_numbers;
pub use setup::{Setup, accepted_setup, setup_of};
