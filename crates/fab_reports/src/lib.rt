//! The report of a run, read back: its lines, or the place at which bytes are no report.
#![tactic(auto)]

mod error;
mod events;
mod kinds;
mod laws;
mod line;
mod objects;
mod place;
mod reading;
mod report;
mod requests;
mod scanning;
mod values;
mod word;

pub use error::TraceError;
pub use laws::{
    no_report_begins_another, one_list_of_lines_a_report, printed_report_has_its_lines,
};
pub use line::{
    Attempt, Line, ShownCommit, ShownEnding, ShownEvent, ShownInner, ShownName, ShownObject,
    ShownOutcome, ShownValue,
};
pub use reading::report_of;
pub use report::read_events;
pub use scanning::bytes_until;
pub use word::{behind, shared_front};
