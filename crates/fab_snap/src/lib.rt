//! A serial state that one thread adds commits to, and that others read without waiting.
#![tactic(auto)]

mod pair;
mod rule;
mod state;
#[cfg(test)]
mod tests;
mod write_set;

pub use pair::{SnapReader, SnapWriter, last_read, snap_writer};
pub use write_set::WriteSet;
