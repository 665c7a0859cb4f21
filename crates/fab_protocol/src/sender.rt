//! What a store remembers of who sends to it.

use fab_base::Tid;

/// What a store remembers of a node that may send to it: the last tid on which it voted for the first
/// time, and the last boot that it recorded. A new boot sets the tid to that boot and number 0.
#[derive(Clone, Copy, Debug, PartialEq, Eq)]
pub struct Sender {
    pub last: Tid,
    pub boot: u32,
}
