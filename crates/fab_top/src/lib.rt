//! The top call: what the program does with its words, its input and its output.
#![tactic(auto)]

mod command;
mod tasks;

pub use command::{fab, plain};
pub use fab_front::Status;
