//! Sets of numbers that answer at once.
#![tactic(auto)]

mod numbers;

pub use numbers::{is_listed, set_of};
