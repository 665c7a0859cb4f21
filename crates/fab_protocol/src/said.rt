//! What a store does at a message.

use fab_base::{Entry, Message, Seq};
use fab_net::Note;

/// What a store does: its journal record, what it sends to whom, in order, and the notes.
#[derive(Debug, Drop)]
pub struct Said {
    pub entry: Option<Entry>,
    pub sends: Seq<(u16, Message)>,
    pub notes: Seq<Note>,
}
