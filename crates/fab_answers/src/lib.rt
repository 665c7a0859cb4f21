//! What the commands `check`, `eval`, `flows` and `fmt` reply to a text.
#![tactic(auto)]

mod bundles;
mod said;

pub use said::{Said, said_of};
