//! Why there is no core.

use fab_base::Seq;
use fab_device::Journal;

/// Why there is no core: a call of the journal of this node failed, or memory ran out. All journals are handed
/// back, in the order of their nodes.
#[derive(Drop)]
pub enum CoreRefused<J: Journal> {
    Journal { node: u16, journals: Seq<J> },
    Memory { journals: Seq<J> },
}
