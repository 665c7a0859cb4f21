//! A store: it hears what workers ask of its objects, votes in their two-phase commits, and keeps a
//! record of each change before it answers.
#![tactic(auto)]

mod changes;
mod fetches;
mod heard;
mod laws;
mod plan;
mod recovery;
mod senders;
mod start;
mod steps;
mod store;
mod votes;

pub use fetches::answer_to_fetch;
pub use laws::{kept_in_a_row, recovery_gives_the_store};
pub use plan::StorePlan;
pub use senders::{none_heard, sender_in, set_boot, set_last};
pub use start::table_at_start;
pub use store::Store;
