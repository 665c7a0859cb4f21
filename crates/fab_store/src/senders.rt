//! What is remembered of each node that may send.

ghost use Rattle.std.specs.Prelude.{◌≡◌, IfOk, map};
ghost use Rattle.std.specs.List.{range_with_len};
ghost use Rattle.fab_protocol.specs.Stores.{sender_in, start_of, unheard, with_boot, with_last};

use fab_base::{NoMemory, Seq, Tid};
use fab_protocol::Sender;
use std::alloc::Global;

/// How many node numbers there are.
const NODES: u16 = 64;

/// Before a worker's first attempt in a boot.
fn start_of(worker: u16, boot: u32) -> Tid
    ensures { result ≡ start_of worker boot }
{
    Tid {
        worker,
        boot,
        number: 0,
    }
}

/// Nothing was heard of a node yet.
fn unheard(node: u16) -> Sender
    ensures { result ≡ unheard node }
{
    Sender {
        last: start_of(node, 0),
        boot: 0,
    }
}

/// Nothing was heard of any node yet.
pub fn none_heard(alloc: Global) -> Result<Vec<Sender>, NoMemory>
    ensures { IfOk result (λ senders. senders.items ≡ map unheard (range_with_len 0 64)) }
{
    let mut senders = Vec::new(alloc);
    for node in 0..NODES {
        senders.push(unheard(node))?;
    }
    Ok(senders)
}

/// What is remembered of a node.
pub fn sender_in(senders: &[Sender], node: u16) -> Sender
    ensures { result ≡ sender_in senders.now node }
{
    match senders.get(usize::from(node)) {
        Some(sender) => *sender,
        None => unheard(node),
    }
}

/// The last tid of its worker is this one.
pub fn set_last(senders: &mut Vec<Sender>, tid: Tid)
    ensures { senders.new.items ≡ with_last tid senders.old.items }
{
    let at = usize::from(tid.worker);
    if at < senders.len() {
        senders[at].last = tid;
    }
}

/// A worker has begun this boot.
pub fn set_boot(senders: &mut Vec<Sender>, worker: u16, boot: u32)
    ensures { senders.new.items ≡ with_boot worker boot senders.old.items }
{
    let at = usize::from(worker);
    if at < senders.len() {
        senders[at] = Sender {
            last: start_of(worker, boot),
            boot,
        };
    }
}
