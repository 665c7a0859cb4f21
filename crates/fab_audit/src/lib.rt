//! Whether a report, and journals beside it, are those of a run of a bundle; and, as a law, that a report tells the events of its run.
#![tactic(auto)]

mod auditing;
mod keeping;
mod laws;
mod reply;
mod retelling;
mod start;
mod verdict;

pub use auditing::audit;
pub use laws::one_report_tells_one_list_of_events;
pub use reply::audited;
pub use verdict::{AuditError, Verdict};
