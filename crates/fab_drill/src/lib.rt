//! The summary of a run, in bytes: one line on its requests, and on what the stores hold behind them.
#![tactic(auto)]

mod counts;
mod summary;
mod totals;

pub use summary::print_summary;
