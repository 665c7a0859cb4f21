//! What is replied to a command and a text, and how that is read and written.
#![tactic(auto)]

mod answers;
mod at_hand;
mod command;
mod laws;

pub use at_hand::answer_text;
pub use command::answer;
pub use laws::{calls_are_isolated_alike, trust_shows_what_is_held, written_reports_are_read_back};
