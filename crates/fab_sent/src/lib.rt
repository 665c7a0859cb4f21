//! Messages between nodes, in bytes: of each pair what the first has sent to the second.
#![tactic(auto)]

mod sent;
mod spelling;

pub use sent::{Sends, Sent};
pub use spelling::{keeps_counts, spell};
