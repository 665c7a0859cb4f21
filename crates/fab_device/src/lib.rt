//! Journals: bytes that survive a crash up to where they were synced, in memory and in files.
#![tactic(auto)]

mod files;
mod memory;
mod shelf;
mod stopping;
mod sure;
mod traits;

pub use files::{FileJournal, FileJournals};
pub use memory::{MemJournal, MemJournals};
pub use sure::{SureJournal, SureJournals};
pub use traits::{Journal, JournalError, Journals};

#[cfg(test)]
mod tests;
