//! What is asked for.

use fab_base::Seq;

/// The names of the nodes of a set, none where no set is asked for, and the first and the last event to be
/// drawn, counted from 1.
#[derive(Debug, Drop)]
pub struct Asked {
    pub nodes: Seq<Seq<u8>>,
    pub from: u32,
    pub to: u32,
}
