//! Messages by sender and receiver.
ghost use Rattle.std.specs.Prelude.{◌≡◌, ◌<◌, ◌==◌, ◌&&◌, ℕ, [], ◌∷◌, ◌++◌, ◌+◌, ◌*◌, if◌then◌else◌, IfOk, OnOk};
ghost use Rattle.fab_sent.specs.Messages.{messages_in, messages_to};

use fab_base::{NoMemory, Seq};
use std::alloc::Global;
use std::marker::Model;

const NODES: u16 = 64;

/// Messages in bytes, each with its receiver, in order.
pub type Sends = Seq<(u16, Seq<u8>)>;

/// Of each ordered pair of nodes below 64 what the first has sent to the second, in bytes and in
/// order. Contracts see the lists one after the other, by senders and then by receivers.
#[derive(Drop)]
pub struct Sent {
    lists: Vec<Seq<Seq<u8>>>,
}

impl Model for Sent {
    ghost use Rattle.std.specs.Prelude.{◌≡◌, ℕ, List, length};

    ghost Value = { List (List (List ℕ)) };

    ghost view = { λ s. s.lists.items };

    ghost invariant = { λ s. ◌≡◌ {A = ℕ} (length s.lists.items) 4096 };
}

impl Sent {
    /// Nothing was sent.
    pub fn nothing(alloc: Global) -> Result<Sent, NoMemory>
        ensures { IfOk result (λ sent. (n d : ℕ) → messages_in sent n d ≡ []) }
    {
        let mut lists = Vec::new(alloc);
        for _ in 0..4096u16 {
            lists.push(Seq::new(alloc))?;
        }
        Ok(Sent { lists })
    }

    /// What a node below 64 has sent to another.
    pub fn messages(&self, sender: u16, receiver: u16) -> &[Seq<u8>]
        requires sender { sender < 64 }
        requires receiver { receiver < 64 }
        ensures messages { result.now ≡ messages_in self.now sender receiver }
    {
        self.lists[place(sender, receiver)].as_slice()
    }

    /// One more message, between nodes below 64.
    fn put(&mut self, sender: u16, receiver: u16, bytes: Seq<u8>) -> Result<(), NoMemory>
        ensures { OnOk result ((n d : ℕ) → n < 64 → d < 64 →
            messages_in self.new n d ≡ messages_in self.old n d ++ (if (sender == n) && (receiver == d) then bytes ∷ [] else [])) }
    {
        if sender < NODES && receiver < NODES {
            self.lists[place(sender, receiver)].push(bytes)?;
        }
        Ok(())
    }

    /// More messages of a node.
    pub fn put_all(&mut self, sender: u16, sends: Sends) -> Result<(), NoMemory>
        ensures { OnOk result ((n d : ℕ) → n < 64 → d < 64 →
            messages_in self.new n d ≡ messages_in self.old n d ++ (if sender == n then messages_to d sends else [])) }
    {
        for (receiver, bytes) in sends.into_vec() {
            self.put(sender, receiver, bytes)?;
        }
        Ok(())
    }
}

/// Where the list of a pair stands.
fn place(sender: u16, receiver: u16) -> usize
    requires sender { sender < 64 }
    requires receiver { receiver < 64 }
    ensures place { result ≡ sender * 64 + receiver }
    ensures within { result < 4096 }
{
    usize::from(sender) * 64 + usize::from(receiver)
}
