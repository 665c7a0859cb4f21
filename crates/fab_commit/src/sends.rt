//! What the coordinator sends, as bytes.
ghost use Rattle.std.specs.Prelude.{◌≡◌, ◌++◌, IfOk, OnOk, map};
ghost use Rattle.fab_base.specs.MessageSpelling.{KeepsCounts, spelled};
ghost use Rattle.fab_base.specs.declared.message.Message.TheVariants.{Commit, Prepare};
ghost use Rattle.fab_protocol.specs.Parts.{KeepsParts, items_at};
ghost use Rattle.fab_commit.specs.Coordinators.{commits_of, spelled_sends};

use crate::items::items_at;
use fab_base::{Message, NoMemory, Seq, Tid};
use fab_protocol::{Decision, Parts};
use fab_wire::encode;
use std::alloc::Global;

/// Bytes to nodes, in the order of sending.
pub type Sends = Seq<(u16, Seq<u8>)>;

/// What one store is asked to prepare, spelled.
fn prepare_at(alloc: Global, tid: Tid, parts: &Parts, store: u16) -> Result<Seq<u8>, NoMemory>
    requires { KeepsParts parts.now }
    ensures { IfOk result (λ bytes. bytes ≡ spelled (Prepare tid (items_at parts.now store))) }
{
    let items = items_at(alloc, parts, store)?;
    encode(alloc, &Message::Prepare { tid, items })
}

/// To each of these stores what it is asked to prepare.
pub fn prepares(alloc: Global, tid: Tid, parts: &Parts, stores: &[u16]) -> Result<Sends, NoMemory>
    requires { KeepsParts parts.now }
    ensures { IfOk result (λ sends. sends ≡ map (λ s. (s, spelled (Prepare tid (items_at parts.now s)))) stores.now) }
{
    let mut sends = Seq::new(alloc);
    for store in stores {
        sends.push((*store, prepare_at(alloc, tid, parts, *store)?))?;
    }
    Ok(sends)
}

/// The same bytes to each of these stores, behind what is sent before them.
fn add_bytes(alloc: Global, sends: &mut Sends, stores: &[u16], bytes: &[u8]) -> Result<(), NoMemory>
    ensures { OnOk result (sends.new ≡ sends.old ++ map (λ s. (s, bytes.now)) stores.now) }
{
    for store in stores {
        sends.push((*store, Seq::from_slice(alloc, bytes)?))?;
    }
    Ok(())
}

/// One message to each of these stores, behind what is sent before it.
fn add_each(
    alloc: Global,
    sends: &mut Sends,
    stores: &[u16],
    message: &Message,
) -> Result<(), NoMemory>
    requires { KeepsCounts message.now }
    ensures { OnOk result (sends.new ≡ sends.old ++ map (λ s. (s, spelled message.now)) stores.now) }
{
    let bytes = encode(alloc, message)?;
    add_bytes(alloc, sends, stores, bytes.as_slice())
}

/// A decided Commit to the stores that took part, behind what is sent before it.
fn add_commits(alloc: Global, sends: &mut Sends, decision: &Decision) -> Result<(), NoMemory>
    ensures { OnOk result (sends.new ≡ sends.old ++ map (λ s. (s, spelled (Commit decision.now.tid))) decision.now.stores) }
{
    let commit = Message::Commit { tid: decision.tid };
    add_each(alloc, sends, decision.stores.as_slice(), &commit)
}

/// One message to each of these stores.
pub fn to_each(alloc: Global, stores: &[u16], message: &Message) -> Result<Sends, NoMemory>
    requires counts { KeepsCounts message.now }
    ensures sends { IfOk result (λ sends. sends ≡ map (λ s. (s, spelled message.now)) stores.now) }
{
    let mut sends = Seq::new(alloc);
    add_each(alloc, &mut sends, stores, message)?;
    Ok(sends)
}

/// Each Commit again, to the stores that took part.
pub fn resend(alloc: Global, decided: &[Decision]) -> Result<Sends, NoMemory>
    ensures sends { IfOk result (λ sends. sends ≡ spelled_sends (commits_of decided.now)) }
{
    let mut sends = Seq::new(alloc);
    for decision in decided {
        add_commits(alloc, &mut sends, decision)?;
    }
    Ok(sends)
}
