//! What a store sends, and what it makes known.

ghost use Rattle.std.specs.Prelude.{◌≡◌, IfOk, map};
ghost use Rattle.fab_base.specs.MessageSpelling.{spelled};
ghost use Rattle.fab_base.specs.declared.message.Message.TheVariants.{Inquire};
ghost use Rattle.fab_protocol.specs.Stores.{asks, fetched};
ghost use Rattle.fab_release.specs.Replay.{store_says};
ghost use Rattle.fab_release.specs.Sights.{Public, Sight};
ghost use Rattle.fab_sent.specs.Messages.{all_spelled};
ghost use Rattle.fab_shelf.specs.Shelves.{fetch_of, left_behind};

use crate::changes::rows_left;
use crate::stored::Stored;
use fab_base::{Items, Message, NoMemory, Object, Oid, Seq, Tid};
use fab_rights::Rights;
use fab_sent::{Sends, spell};
use fab_store::answer_to_fetch;
use std::alloc::Global;

/// What a worker fetches, in an attempt of its own.
fn fetch_of(rights: &Rights, sender: u16, message: &Message) -> Option<(Tid, Oid)>
    ensures { result ≡ fetch_of rights.now sender message.now }
{
    match message {
        Message::Fetch { tid, oid } if rights.is_worker(sender) && tid.worker == sender => {
            Some((*tid, *oid))
        }
        _ => None,
    }
}

/// A message to a node.
fn spelled_send(alloc: Global, node: u16, message: &Message) -> Result<(u16, Seq<u8>), NoMemory>
    ensures { IfOk result (λ send. send ≡ (node, spelled message.now)) }
{
    Ok((node, spell(alloc, message)?))
}

/// What became of a transaction is asked of its worker.
fn inquiry(alloc: Global, tid: Tid) -> Result<(u16, Seq<u8>), NoMemory>
    ensures { IfOk result (λ send. send ≡ (tid.worker, spelled (Inquire tid))) }
{
    let message = Message::Inquire { tid };
    spelled_send(alloc, tid.worker, &message)
}

/// What became of each of these transactions is asked of its worker.
fn inquiries(alloc: Global, prepared: &[(Tid, Items)]) -> Result<Sends, NoMemory>
    ensures { IfOk result (λ sends. sends ≡ all_spelled (map (λ p. (p.0.worker, Inquire p.0)) prepared.now)) }
{
    let mut sends = Seq::new(alloc);
    for one in prepared {
        sends.push(inquiry(alloc, one.0)?)?;
    }
    Ok(sends)
}

impl Stored {
    /// What it sends at a message at once. Only a Fetch is answered.
    pub fn says(
        &self,
        alloc: Global,
        rights: &Rights,
        store: u16,
        sender: u16,
        message: &Message,
    ) -> Result<Sends, NoMemory>
        ensures { IfOk result (λ sends. (sight : Sight) (P : Public) → P.rights ≡ rights.now → sends ≡ all_spelled (store_says sight P store sender message.now self.now)) }
    {
        match fetch_of(rights, sender, message) {
            Some((tid, oid)) => self.serve(alloc, rights, store, sender, tid, oid),
            None => Ok(Seq::new(alloc)),
        }
    }

    /// What it sends at a Fetch of a worker.
    fn serve(
        &self,
        alloc: Global,
        rights: &Rights,
        store: u16,
        sender: u16,
        tid: Tid,
        oid: Oid,
    ) -> Result<Sends, NoMemory>
        ensures { IfOk result (λ sends. sends ≡ all_spelled (fetched rights.now store sender tid oid self.now.shelf).sends) }
    {
        let answer = answer_to_fetch(alloc, rights, &self.table, store, sender, tid, oid)?;
        let mut sends = Seq::new(alloc);
        sends.push(spelled_send(alloc, sender, &answer)?)?;
        Ok(sends)
    }

    /// What a Commit of a worker leaves: whatever its tid has prepared here, seen or not.
    pub fn applies(
        &self,
        alloc: Global,
        sender: u16,
        message: &Message,
    ) -> Result<Seq<(Oid, u32, Object)>, NoMemory>
        ensures { IfOk result (λ rows. rows ≡ left_behind sender message.now self.now.shelf.prepared) }
    {
        match message {
            Message::Commit { tid } if tid.worker == sender => {
                rows_left(alloc, *tid, self.prepared.as_slice())
            }
            _ => Ok(Seq::new(alloc)),
        }
    }

    /// What it asks after a crash: of each prepared transaction what became of it.
    pub fn asks(&self, alloc: Global) -> Result<Sends, NoMemory>
        ensures { IfOk result (λ sends. sends ≡ all_spelled (asks self.now.shelf).sends) }
    {
        inquiries(alloc, &self.prepared)
    }
}
