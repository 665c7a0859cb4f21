//! The downgrades of a method, found in one walk over its statements: of each its kind, place, site and labels.
#![tactic(auto)]

mod downgrades;
mod rows;

pub use downgrades::{downgraded_by, downgraded_by_all};
pub use rows::Downgraded;
