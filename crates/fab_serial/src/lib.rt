//! The commits of a run, in the order in which they were decided, and what they come to when they are
//! done again one after the other.
#![tactic(auto)]

mod decisions;
mod laws;
mod objects;
mod replaying;
mod requests;

pub use decisions::commits;
pub use laws::commits_are_honest;
pub use objects::{at_start, put_within};
pub use replaying::{left_by, redo, replay};
pub use requests::request_at;
