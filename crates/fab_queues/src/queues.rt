//! A queue for each ordered pair of nodes.
ghost use Rattle.std.specs.Prelude.{◌≡◌, ◌<◌, ◌≤◌, ◌+◌, ◌-◌, ◌*◌, ◌++◌, ◌∷◌, [], ℕ, length, replicate, MatchOption, OnOk, IfOk};
ghost use Rattle.fab_queues.specs.Channels.{no_traffic, queue_of, rest_of, sent_of, spare_of, with_at, with_pair};

use crate::channel::Channel;
use fab_base::{NoMemory, Seq};
use std::alloc::Global;
use std::marker::Model;

/// Of each ordered pair of nodes the messages that were sent, and those of them that wait. A queue is
/// the end of its pair's sent list, so no message is copied. Contracts see for each pair what was
/// sent, what waits, and for how many messages more there is room without taking memory.
#[derive(Debug, Drop)]
pub struct Queues {
    nodes: u16,
    channels: Vec<Channel>,
}

impl Model for Queues {
    ghost use Rattle.std.specs.Prelude.{◌≡◌, ◌*◌, length};
    ghost use Rattle.fab_queues.specs.Channels.{Network};

    ghost Value = { Network };

    ghost view = { λ q. record { nodes = q.nodes; pairs = q.channels.items } };

    ghost invariant = { λ q. length q.channels.items ≡ q.nodes * q.nodes };
}

impl Queues {
    /// Queues among so many nodes. Nothing was sent.
    pub fn make(alloc: Global, nodes: u16) -> Result<Queues, NoMemory>
        ensures nodes { IfOk result (λ made. made.nodes ≡ nodes) }
        ensures sent { IfOk result (λ made. (x y : ℕ) → sent_of made x y ≡ []) }
        ensures queue { IfOk result (λ made. (x y : ℕ) → queue_of made x y ≡ []) }
    {
        Ok(Queues {
            nodes,
            channels: channels(alloc, usize::from(nodes) * usize::from(nodes))?,
        })
    }

    /// Makes room for so many more messages from a to b.
    pub fn reserve(&mut self, a: u16, b: u16, more: u32) -> Result<(), NoMemory>
        requires from { a < self.old.nodes }
        requires to { b < self.old.nodes }
        ensures made { OnOk result (more ≤ spare_of self.new a b) }
        ensures nodes { self.new.nodes ≡ self.old.nodes }
        ensures sent { (x y : ℕ) → sent_of self.new x y ≡ sent_of self.old x y }
        ensures queue { (x y : ℕ) → queue_of self.new x y ≡ queue_of self.old x y }
        ensures spare { (x y : ℕ) → spare_of self.old x y ≤ spare_of self.new x y }
    {
        let at = place(self.nodes, a, b);
        self.channels[at].reserve(more)
    }

    /// Sends a message from a to b, which waits there behind the others. It takes no memory.
    pub fn push(&mut self, a: u16, b: u16, bytes: Seq<u8>)
        requires from { a < self.old.nodes }
        requires to { b < self.old.nodes }
        requires room { 0 < spare_of self.old a b }
        ensures nodes { self.new.nodes ≡ self.old.nodes }
        ensures sent { (x y : ℕ) → sent_of self.new x y ≡ with_pair (sent_of self.old) a b (sent_of self.old a b ++ bytes ∷ []) x y }
        ensures queue { (x y : ℕ) → queue_of self.new x y ≡ with_pair (queue_of self.old) a b (queue_of self.old a b ++ bytes ∷ []) x y }
        ensures spare { (x y : ℕ) → spare_of self.new x y ≡ with_pair (spare_of self.old) a b (spare_of self.old a b - 1) x y }
    {
        let at = place(self.nodes, a, b);
        self.channels[at].push(bytes);
    }

    /// Sends a message from a to b, where nobody waits for it: the queue is empty then. It takes no
    /// memory.
    pub fn lose(&mut self, a: u16, b: u16, bytes: Seq<u8>)
        requires from { a < self.old.nodes }
        requires to { b < self.old.nodes }
        requires room { 0 < spare_of self.old a b }
        ensures nodes { self.new.nodes ≡ self.old.nodes }
        ensures sent { (x y : ℕ) → sent_of self.new x y ≡ with_pair (sent_of self.old) a b (sent_of self.old a b ++ bytes ∷ []) x y }
        ensures queue { (x y : ℕ) → queue_of self.new x y ≡ with_pair (queue_of self.old) a b [] x y }
        ensures still_empty { queue_of self.old a b ≡ [] → (x y : ℕ) → queue_of self.new x y ≡ queue_of self.old x y }
        ensures spare { (x y : ℕ) → spare_of self.new x y ≡ with_pair (spare_of self.old) a b (spare_of self.old a b - 1) x y }
    {
        let at = place(self.nodes, a, b);
        self.channels[at].lose(bytes);
    }

    /// The message from a to b that has waited longest.
    pub fn front(&self, a: u16, b: u16) -> Option<&Seq<u8>>
        requires from { a < self.now.nodes }
        requires to { b < self.now.nodes }
        ensures { MatchOption result (queue_of self.now a b ≡ []) (λ m. queue_of self.now a b ≡ m.now ∷ rest_of (queue_of self.now a b)) }
    {
        self.channels[place(self.nodes, a, b)].front()
    }

    /// Takes the front of the queue from a to b away.
    pub fn pop(&mut self, a: u16, b: u16)
        requires from { a < self.old.nodes }
        requires to { b < self.old.nodes }
        requires waiting { 0 < length (queue_of self.old a b) }
        ensures nodes { self.new.nodes ≡ self.old.nodes }
        ensures sent { (x y : ℕ) → sent_of self.new x y ≡ sent_of self.old x y }
        ensures queue { (x y : ℕ) → queue_of self.new x y ≡ with_pair (queue_of self.old) a b (rest_of (queue_of self.old a b)) x y }
        ensures spare { (x y : ℕ) → spare_of self.new x y ≡ spare_of self.old x y }
    {
        let at = place(self.nodes, a, b);
        self.channels[at].pop();
    }

    /// Empties the queues to a node.
    pub fn drop_to(&mut self, node: u16)
        requires { node < self.old.nodes }
        ensures nodes { self.new.nodes ≡ self.old.nodes }
        ensures sent { (x y : ℕ) → sent_of self.new x y ≡ sent_of self.old x y }
        ensures queue { (x y : ℕ) → queue_of self.new x y ≡ with_at (queue_of self.old x) node [] y }
        ensures spare { (x y : ℕ) → spare_of self.new x y ≡ spare_of self.old x y }
    {
        for a in 0..self.nodes {
            self.clear(a, node);
        }
    }

    /// Empties the queue from a to b.
    fn clear(&mut self, a: u16, b: u16)
        requires from { a < self.old.nodes }
        requires to { b < self.old.nodes }
        ensures nodes { self.new.nodes ≡ self.old.nodes }
        ensures sent { (x y : ℕ) → sent_of self.new x y ≡ sent_of self.old x y }
        ensures queue { (x y : ℕ) → queue_of self.new x y ≡ with_pair (queue_of self.old) a b [] x y }
        ensures spare { (x y : ℕ) → spare_of self.new x y ≡ spare_of self.old x y }
    {
        let at = place(self.nodes, a, b);
        self.channels[at].clear();
    }

    /// All that was ever sent from a to b.
    pub fn sent(&self, a: u16, b: u16) -> &[Seq<u8>]
        requires from { a < self.now.nodes }
        requires to { b < self.now.nodes }
        ensures { result.now ≡ sent_of self.now a b }
    {
        self.channels[place(self.nodes, a, b)].sent()
    }
}

/// So many channels through which nothing was sent.
fn channels(alloc: Global, count: usize) -> Result<Vec<Channel>, NoMemory>
    ensures { IfOk result (λ made. made.items ≡ replicate count no_traffic) }
{
    let mut made = Vec::new(alloc);
    for _pair in 0..count {
        made.push(Channel::new(alloc))?;
    }
    Ok(made)
}

/// The place of a pair among all.
fn place(nodes: u16, a: u16, b: u16) -> usize
    requires from { a < nodes }
    requires to { b < nodes }
    ensures place { result ≡ a * nodes + b }
    ensures within { result < nodes * nodes }
{
    usize::from(a) * usize::from(nodes) + usize::from(b)
}
