//! What nodes write to their journals.

ghost use Rattle.std.specs.Prelude.{◌≡◌, IfOk};

use crate::message::Items;
use crate::object::{Tid, Value};
use crate::seq::{NoMemory, Seq};
use std::alloc::Global;

/// A journal entry. Decided, Closed and Boot are a worker's, the others a store's.
#[derive(Debug, Drop)]
pub enum Entry {
    /// A commit, with the stores that took part, ascending.
    Decided {
        tid: Tid,
        request: u32,
        result: Option<Value>,
        stores: Seq<u16>,
    },
    /// A request that ended without a commit. The outcome is 1 failed, 2 conflict, 3 silent,
    /// 4 denied for rights, 5 denied as ill formed, or stopped by 6 fuel, 7 depth, 8 reads,
    /// 9 writes; the node is the silent or denying one, and 65535 at other outcomes.
    Closed {
        request: u32,
        outcome: u8,
        node: u16,
    },
    Boot {
        boot: u32,
    },
    Prepared {
        tid: Tid,
        items: Items,
    },
    Refused {
        tid: Tid,
    },
    Applied {
        tid: Tid,
    },
    Released {
        tid: Tid,
    },
    BootSeen {
        worker: u16,
        boot: u32,
    },
}

impl Entry {
    /// An equal entry.
    pub fn copy(&self, alloc: Global) -> Result<Entry, NoMemory>
        ensures { IfOk result (λ entry. entry ≡ self.now) }
    {
        Ok(match self {
            Entry::Decided {
                tid,
                request,
                result,
                stores,
            } => Entry::Decided {
                tid: *tid,
                request: *request,
                result: *result,
                stores: Seq::from_slice(alloc, stores.as_slice())?,
            },
            Entry::Closed {
                request,
                outcome,
                node,
            } => Entry::Closed {
                request: *request,
                outcome: *outcome,
                node: *node,
            },
            Entry::Boot { boot } => Entry::Boot { boot: *boot },
            Entry::Prepared { tid, items } => Entry::Prepared {
                tid: *tid,
                items: items.copy(alloc)?,
            },
            Entry::Refused { tid } => Entry::Refused { tid: *tid },
            Entry::Applied { tid } => Entry::Applied { tid: *tid },
            Entry::Released { tid } => Entry::Released { tid: *tid },
            Entry::BootSeen { worker, boot } => Entry::BootSeen {
                worker: *worker,
                boot: *boot,
            },
        })
    }
}
