//! What one node sends to another.
ghost use Rattle.std.specs.Prelude.{◌≡◌, ◌<◌, ◌≤◌, [], ◌∷◌, length, MatchOption, OnOk};
ghost use Rattle.fab_queues.specs.Channels.{emptied, lost, no_traffic, popped, pushed, rest_of};

use fab_base::{NoMemory, Seq};
use std::alloc::Global;
use std::marker::Model;

/// All messages that were sent, and how many of them were taken or lost; the others wait. Contracts
/// see what was sent, what waits, and for how many messages more there is room without taking memory.
#[derive(Debug, Drop)]
pub struct Channel {
    messages: Vec<Seq<u8>>,
    gone: usize,
}

impl Model for Channel {
    ghost use Rattle.std.specs.Prelude.{◌-◌, ◌≤◌, drop, length, vec_capacity, vec_len};
    ghost use Rattle.fab_queues.specs.Channels.{Traffic};

    ghost Value = { Traffic };

    ghost view = { λ c. record { sent = c.messages.items; waiting = drop c.gone c.messages.items; spare = vec_capacity c.messages - vec_len c.messages } };

    ghost invariant = { λ c. c.gone ≤ length c.messages.items };
}

impl Channel {
    /// Nothing was sent. It takes no memory.
    pub fn new(alloc: Global) -> Channel
        ensures { result ≡ no_traffic }
    {
        Channel {
            messages: Vec::new(alloc),
            gone: 0,
        }
    }

    /// Makes room for so many more messages.
    pub fn reserve(&mut self, more: u32) -> Result<(), NoMemory>
        ensures made { OnOk result (more ≤ self.new.spare) }
        ensures sent { self.new.sent ≡ self.old.sent }
        ensures waiting { self.new.waiting ≡ self.old.waiting }
        ensures spare { self.old.spare ≤ self.new.spare }
    {
        self.messages.reserve(more as usize)
    }

    /// Sends a message, which waits behind the others. It takes no memory.
    pub fn push(&mut self, message: Seq<u8>)
        requires { 0 < self.old.spare }
        ensures { self.new ≡ pushed message self.old }
    {
        self.messages.push_reserved(message);
    }

    /// Sends a message to nobody: nothing waits behind it. It takes no memory.
    pub fn lose(&mut self, message: Seq<u8>)
        requires { 0 < self.old.spare }
        ensures { self.new ≡ lost message self.old }
    {
        self.messages.push_reserved(message);
        self.gone = self.messages.len();
    }

    /// The message that has waited longest.
    pub fn front(&self) -> Option<&Seq<u8>>
        ensures { MatchOption result (self.now.waiting ≡ []) (λ m. self.now.waiting ≡ m.now ∷ rest_of self.now.waiting) }
    {
        if self.gone < self.messages.len() {
            Some(&self.messages[self.gone])
        } else {
            None
        }
    }

    /// Takes the front away.
    pub fn pop(&mut self)
        requires { 0 < length self.old.waiting }
        ensures { self.new ≡ popped self.old }
    {
        self.gone += 1;
    }

    /// Takes away all that waits.
    pub fn clear(&mut self)
        ensures { self.new ≡ emptied self.old }
    {
        self.gone = self.messages.len();
    }

    /// All that was ever sent.
    pub fn sent(&self) -> &[Seq<u8>]
        ensures { result.now ≡ self.now.sent }
    {
        self.messages.as_slice()
    }
}
