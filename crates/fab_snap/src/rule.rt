//! What each thread knows of the published commits, and what a step of one tells it.
ghost use Rattle.fab_snap.specs.Rule.{Keeps, Publishes, informed, newcomer};

use crate::state::Snap;
use crate::write_set::WriteSet;
use atomic_table::{Join, Split};
use crossbeam_utils::rule::{Outcome, Protocol};
use fab_base::{Object, Oid, Seq};
use std::collections::LinkedList;

/// The rows at the start, where they are known, the commits that were seen, and those that were told
/// of. No value of it is made.
pub struct View {
    pub start: Option<Seq<(Oid, u32, Object)>>,
    pub seen: LinkedList<WriteSet>,
    pub told: LinkedList<WriteSet>,
}

/// The commits that are published begin with all that anybody knows.
pub(crate) struct Published;

impl Protocol<Snap, View> for Published {
    ghost holds = { Keeps };

    ghost first = { newcomer };
}

/// What is seen are the commits that are published.
pub(crate) struct Sees;

impl Outcome<Snap, View> for Sees {
    ghost then = { Publishes };
}

/// What the writer knows is told to a reader.
pub(crate) struct Notes;

impl Split<View> for Notes {
    ghost left = { λ v. v };

    ghost right = { λ v. v };
}

impl Join<View> for Notes {
    ghost both = { informed };

    ghost spent = { newcomer };
}
