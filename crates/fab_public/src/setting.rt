//! What is known before any entry.

use fab_places::Seen;
use fab_rights::Rights;
use fab_tree::resolved::Resolved;
use std::alloc::Global;

/// The nodes of the set, as a mask, what they see, the rights, and the public part of the bundle.
#[derive(Clone, Copy)]
pub(crate) struct Setting<'a> {
    pub(crate) alloc: Global,
    pub(crate) nodes: u64,
    pub(crate) seen: Seen,
    pub(crate) rights: &'a Rights,
    pub(crate) part: &'a Resolved,
}
