//! What the program can be asked.
#![tactic(auto)]

mod command;
mod task;

pub use command::{Command, Telling};
pub use task::Task;
