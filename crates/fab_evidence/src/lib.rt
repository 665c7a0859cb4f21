//! What an auditor is shown: a report and journals behind it. Where the report begins is found, their text is
//! read, its lines tell the events of a run, and beside the lines of another text the first that differs is found.
#![tactic(auto)]

mod first;
mod journals;
mod marks;
mod named;
mod place;
mod shown;
mod text;

pub use first::{first_before_barred, first_difference};
pub use marks::told_in;
pub use named::{named_event, node_named};
pub use place::report_place;
pub use shown::{Difference, Evidence, ShownJournal, Told};
pub use text::read_audit;
