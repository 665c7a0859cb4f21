//! What an auditor is shown, and what he finds.

use fab_base::Seq;
use fab_net::Event;
use fab_reports::Line;

/// A journal of a node, in bytes.
#[derive(Debug, Drop)]
pub struct ShownJournal {
    pub node: u16,
    pub bytes: Seq<u8>,
}

/// What an auditor is shown: the lines of a report, and journals of nodes.
#[derive(Debug, Drop)]
pub struct Evidence {
    pub lines: Seq<Line>,
    pub journals: Seq<ShownJournal>,
}

/// An event of a run, with a mark where a call of the journal of its node counts as having failed in it.
#[derive(Clone, Copy, Debug)]
pub struct Told {
    pub event: Event,
    pub marked: bool,
}

/// The first line that isn't so: its number from 1, the line that was found, and the one that belongs
/// there, each without its line feed. Where there is none, the text is empty.
#[derive(Debug, Drop)]
pub struct Difference {
    pub line: u32,
    pub found: Seq<u8>,
    pub kept: Seq<u8>,
}
