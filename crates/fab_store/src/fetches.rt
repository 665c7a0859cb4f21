//! How a store answers a Fetch.

ghost use Rattle.std.specs.Prelude.{◌≡◌, IfOk};
ghost use Rattle.fab_protocol.specs.Stores.{Shelf, fetched, replies, silent};

use crate::store::Store;
use fab_base::{Message, NoMemory, Oid, Seq, Tid, Why};
use fab_protocol::Said;
use fab_rights::Rights;
use fab_versions::Table;
use std::alloc::Global;

/// Nothing is said.
pub fn silent(alloc: Global) -> Said
    ensures { result ≡ silent }
{
    Said {
        entry: None,
        sends: Seq::new(alloc),
        notes: Seq::new(alloc),
    }
}

/// One message to a node.
fn reply(alloc: Global, node: u16, message: Message) -> Result<Said, NoMemory>
    ensures { IfOk result (λ said. said ≡ replies node message) }
{
    let mut said = silent(alloc);
    said.sends.push((node, message))?;
    Ok(said)
}

/// The answer of a store with these objects to a Fetch of one of them by a worker.
pub fn answer_to_fetch(
    alloc: Global,
    rights: &Rights,
    table: &Table,
    store: u16,
    sender: u16,
    tid: Tid,
    oid: Oid,
) -> Result<Message, NoMemory>
    ensures { IfOk result (λ answer. (shelf : Shelf) → shelf.rows ≡ table.now.rows → fetched rights.now store sender tid oid shelf ≡ replies sender answer) }
{
    let why = if oid.store != store || !rights.knows(oid.class) {
        Why::Missing
    } else if !rights.may_fetch(sender, oid.class) {
        Why::Rights
    } else {
        match table.get(oid) {
            Some((version, found)) => {
                return Ok(Message::Object {
                    tid,
                    oid,
                    version,
                    object: found.copy(alloc)?,
                });
            }
            None => Why::Missing,
        }
    };
    Ok(Message::Deny { tid, oid, why })
}

impl Store {
    /// What the store says to a Fetch of this object by a worker.
    pub(crate) fn fetched(&self, sender: u16, tid: Tid, oid: Oid) -> Result<Said, NoMemory>
        ensures { IfOk result (λ said. said ≡ fetched self.now.rights self.now.node sender tid oid self.now.shelf) }
    {
        let alloc = self.alloc;
        let answer = answer_to_fetch(
            alloc,
            &self.rights,
            &self.table,
            self.node,
            sender,
            tid,
            oid,
        )?;
        reply(alloc, sender, answer)
    }
}
