//! What a node sends in an event joins the queues.

ghost use Rattle.std.specs.Prelude.{◌≡◌, ◌+◌, ◌<◌, ◌≤◌, ◌==◌, ◌∷◌, [], ℕ, false, length, IsTrue, OnOk};
ghost use Rattle.std.specs.List.{filter};
ghost use Rattle.fab_rights.specs.Computed.{is_node as is_node_in};
ghost use Rattle.fab_queues.specs.Channels.{queue_of, sent_of, spare_of};
ghost use Rattle.fab_nodes.specs.Acts.{AreAmong, IsWaiting, taken};
ghost use Rattle.fab_nodes.specs.Transit.{AreSentOut, OnlyGainsLanes, bytes_to, is_up_at};

use crate::seen::is_up;
use fab_base::{NoMemory, Seq};
use fab_device::Journal;
use fab_net::Inner;
use fab_node::Node;
use fab_queues::Queues;
use fab_rights::Rights;
use std::alloc::AllocError;

/// How many of these messages are for one receiver.
fn count_for(sends: &[(u16, Seq<u8>)], to: u16) -> usize
    ensures { result ≡ length (filter (λ x. x.0 == to) sends.now) }
{
    sends.iter().filter(|send| send.0 == to).count()
}

/// Makes room for these messages of a node.
pub fn make_room(queues: &mut Queues, n: u16, sends: &[(u16, Seq<u8>)]) -> Result<(), NoMemory>
    requires lanes { queues.old.nodes ≡ 64 }
    requires from { n < 64 }
    ensures room { OnOk result ((b : ℕ) → b < 64 → length (bytes_to b sends.now) ≤ spare_of queues.new n b) }
    ensures kept { OnlyGainsLanes queues.old queues.new }
{
    for to in 0..64_u16 {
        let count = count_for(sends, to);
        let Ok(more) = u32::try_from(count) else {
            return Err(AllocError);
        };
        queues.reserve(n, to, more)?;
    }
    Ok(())
}

/// Whether there is a node of this number.
pub fn is_node(rights: &Rights, n: u16) -> bool
    ensures { result ≡ is_node_in rights.now n }
{
    rights.is_worker(n) || rights.is_store(n)
}

/// Makes room for one message, where there is a node that it is for.
pub fn make_room_for(rights: &Rights, queues: &mut Queues, n: u16, to: u16) -> Result<(), NoMemory>
    requires lanes { queues.old.nodes ≡ 64 }
    requires from { n < 64 }
    requires among { (b : ℕ) → IsTrue (is_node_in rights.now b) → b < 64 }
    ensures room { OnOk result (IsTrue (is_node_in rights.now to) → 0 < spare_of queues.new n to) }
    ensures kept { OnlyGainsLanes queues.old queues.new }
{
    if is_node(rights, to) {
        queues.reserve(n, to, 1)
    } else {
        Ok(())
    }
}

/// Takes the message that an event delivers off its queue.
pub fn take_front(queues: &mut Queues, inner: Inner)
    requires among { AreAmong queues.old.nodes inner }
    requires waiting { IsWaiting queues.old inner }
    ensures lanes { queues.new.nodes ≡ queues.old.nodes }
    ensures sent { (a b : ℕ) → sent_of queues.new a b ≡ sent_of queues.old a b }
    ensures queue { (a b : ℕ) → queue_of queues.new a b ≡ taken (queue_of queues.old) inner a b }
    ensures spare { (a b : ℕ) → spare_of queues.new a b ≡ spare_of queues.old a b }
{
    if let Inner::Deliver(from, to) = inner {
        queues.pop(from, to);
    }
}

/// Sends one message, for which there is room. It waits where its receiver is up.
pub fn send_one<J: Journal>(
    rights: &Rights,
    nodes: &[Option<Node<J>>],
    queues: &mut Queues,
    n: u16,
    to: u16,
    bytes: Seq<u8>,
)
    requires lanes { queues.old.nodes ≡ 64 }
    requires from { n < 64 }
    requires among { (b : ℕ) → IsTrue (is_node_in rights.now b) → b < 64 }
    requires room { IsTrue (is_node_in rights.now to) → 0 < spare_of queues.old n to }
    requires idle { is_up_at nodes.now to ≡ false → queue_of queues.old n to ≡ [] }
    ensures sent { AreSentOut rights.now (is_up_at nodes.now) n ((to, bytes) ∷ []) queues.old queues.new }
    ensures room { (b : ℕ) → spare_of queues.old n b ≤ spare_of queues.new n b + length (bytes_to b ((to, bytes) ∷ [])) }
{
    if is_node(rights, to) {
        if is_up(nodes, to) {
            queues.push(n, to, bytes);
        } else {
            queues.lose(n, to, bytes);
        }
    }
}

/// Sends messages, for which there is room, in their order.
pub fn send<J: Journal>(
    rights: &Rights,
    nodes: &[Option<Node<J>>],
    queues: &mut Queues,
    n: u16,
    sends: Seq<(u16, Seq<u8>)>,
)
    requires lanes { queues.old.nodes ≡ 64 }
    requires from { n < 64 }
    requires among { (b : ℕ) → IsTrue (is_node_in rights.now b) → b < 64 }
    requires room { (b : ℕ) → b < 64 → length (bytes_to b sends) ≤ spare_of queues.old n b }
    requires idle { (b : ℕ) → is_up_at nodes.now b ≡ false → queue_of queues.old n b ≡ [] }
    ensures { AreSentOut rights.now (is_up_at nodes.now) n sends queues.old queues.new }
{
    let mut rest = sends.into_vec();
    rest.reverse();
    while let Some((to, bytes)) = rest.pop() {
        send_one(rights, nodes, queues, n, to, bytes);
    }
}
