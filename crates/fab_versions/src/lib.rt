//! The current objects of a store with their versions, by name.
#![tactic(auto)]

mod blocks;
mod row_list;
mod table;

pub use table::{Table, next_version};
