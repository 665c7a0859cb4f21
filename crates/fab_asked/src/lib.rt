//! What a command's word and its operands ask for.
#![tactic(auto)]

mod asked;
mod names;
mod numbers;

pub use asked::asked_with;
