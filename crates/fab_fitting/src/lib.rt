//! The numbers that stand in a bundle fit 32 bits, and its rights are one.
#![tactic(auto)]

mod bodies;
mod expressions;
mod laws;
mod whole;

pub use laws::rights_are_one;
pub use whole::read_numbers;
