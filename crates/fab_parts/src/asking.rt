//! Stores by their numbers, and what they are asked and told, in bytes.
ghost use Rattle.std.specs.Prelude.{◌≡◌, [], ◌∷◌, ◌++◌, IfOk, OnOk, map};
ghost use Rattle.std.specs.List.{filter, range_with_len};
ghost use Rattle.fab_base.specs.declared.message.Message.TheVariants.{Prepare};
ghost use Rattle.fab_base.specs.MessageSpelling.{spelled};
ghost use Rattle.fab_protocol.specs.Parts.{items_at};
ghost use Rattle.fab_rights.specs.Computed.{has_bit, is_store};
ghost use Rattle.fab_sent.specs.Messages.{all_spelled};
ghost use Rattle.fab_world.specs.Workers.{to_all};

use fab_base::{Message, NoMemory, Seq, Tid};
use fab_commit::items_at;
use fab_protocol::Parts;
use fab_rights::{Rights, is_in};
use fab_sent::{Sends, spell};
use std::alloc::Global;

/// One message to a node.
pub fn one(alloc: Global, receiver: u16, message: &Message) -> Result<Sends, NoMemory>
    ensures { IfOk result (λ sent. sent ≡ all_spelled ((receiver, message.now) ∷ [])) }
{
    let mut sends = Seq::new(alloc);
    sends.push((receiver, spell(alloc, message)?))?;
    Ok(sends)
}

/// One message to each of these stores, behind what is sent before it.
#[tactic(auto, using(crate::proofs::Spelled::to_all_more))]
pub fn add_all(
    alloc: Global,
    sends: &mut Sends,
    stores: &[u16],
    message: &Message,
) -> Result<(), NoMemory>
    ensures { OnOk result (sends.new ≡ sends.old ++ all_spelled (to_all stores.now message.now)) }
{
    for store in stores {
        sends.push((*store, spell(alloc, message)?))?;
    }
    Ok(())
}

/// One message to each of these stores.
pub fn to_all(alloc: Global, stores: &[u16], message: &Message) -> Result<Sends, NoMemory>
    ensures { IfOk result (λ sent. sent ≡ all_spelled (to_all stores.now message.now)) }
{
    let mut sends = Seq::new(alloc);
    add_all(alloc, &mut sends, stores, message)?;
    Ok(sends)
}

/// Keeps those whose bit the mask has.
pub fn keep_in_set(nodes: u64, stores: &mut Vec<u16>)
    ensures { stores.new.items ≡ filter (has_bit nodes) stores.old.items }
{
    stores.retain(|store| is_in(nodes, *store));
}

/// What one store is asked to prepare, in bytes.
fn prepare_at(alloc: Global, tid: Tid, parts: &Parts, store: u16) -> Result<Seq<u8>, NoMemory>
    ensures { IfOk result (λ bytes. bytes ≡ spelled (Prepare tid (items_at parts.now store))) }
{
    let items = items_at(alloc, parts, store)?;
    spell(alloc, &Message::Prepare { tid, items })
}

/// To each of these stores what it is asked to prepare.
#[tactic(auto, using(crate::proofs::Spelled::each_more))]
pub fn prepares(alloc: Global, tid: Tid, parts: &Parts, stores: &[u16]) -> Result<Sends, NoMemory>
    ensures { IfOk result (λ sent. sent ≡ all_spelled (map (λ s. (s, Prepare tid (items_at parts.now s))) stores.now)) }
{
    let mut sends = Seq::new(alloc);
    for store in stores {
        sends.push((*store, prepare_at(alloc, tid, parts, *store)?))?;
    }
    Ok(sends)
}

/// The stores below this number that the rights know, in the order of their numbers.
#[tactic(auto, using(fab_base::proofs::Lists::one_kept, fab_base::proofs::Lists::none_kept))]
pub fn stores_below(alloc: Global, rights: &Rights, end: u16) -> Result<Vec<u16>, NoMemory>
    ensures { IfOk result (λ stores. stores.items ≡ filter (is_store rights.now) (range_with_len 0 end)) }
{
    let mut stores = Vec::new(alloc);
    for node in 0..end {
        if rights.is_store(node) {
            stores.push(node)?;
        }
    }
    Ok(stores)
}
