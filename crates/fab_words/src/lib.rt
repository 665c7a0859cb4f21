//! What the words of the command line ask for.
#![tactic(auto)]

mod asked;

pub use asked::asked_task;
