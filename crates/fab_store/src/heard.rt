//! What a store says to a message.

ghost use Rattle.std.specs.Prelude.{◌≡◌, [], Some, IfOk};
ghost use Rattle.fab_base.specs.MessageSpelling.{KeepsCounts};
ghost use Rattle.fab_base.specs.Tids.{is_above};
ghost use Rattle.fab_base.specs.declared.message.Message.TheVariants as messages;
ghost use Rattle.fab_wire.specs.Reading.{read_message};
ghost use Rattle.fab_protocol.specs.Stores.{asked, does, hears, is_own, says, voted};
ghost use Rattle.fab_store.specs.Stock.{CanKeepSaid, CanSpell};

use crate::fetches::silent;
use crate::senders::sender_in;
use crate::store::Store;
use fab_base::{Answer, Entry, Items, Message, NoMemory, Tid};
use fab_net::Note;
use fab_protocol::Said;
use fab_wire::{DecodeError, decode};
use std::alloc::AllocError;

/// Whether a tid comes after another of its worker.
fn is_above(tid: Tid, last: Tid) -> bool
    ensures { result ≡ is_above tid last }
{
    tid.boot > last.boot || tid.boot == last.boot && tid.number > last.number
}

/// Whether this may be a Prepare, by its kind, the second byte: the one message for which it is asked who bars
/// a name. It tells what an answer costs, not which one it is.
pub fn may_be_prepare(bytes: &[u8]) -> bool {
    bytes.get(1) == Some(&4)
}

/// Whether workers send such a message, and its tid, if it has one, is the sender's.
fn is_own(message: &Message, sender: u16) -> bool
    ensures { result ≡ is_own sender message.now }
{
    match message {
        Message::Fetch { tid, .. } => tid.worker == sender,
        Message::Prepare { tid, .. } => tid.worker == sender,
        Message::Commit { tid } => tid.worker == sender,
        Message::Abort { tid } => tid.worker == sender,
        Message::Boot { .. } => true,
        _ => false,
    }
}

/// The record of a vote on what was new.
fn voted(tid: Tid, items: Items, answer: Answer) -> Entry
    ensures { result ≡ voted tid items answer }
{
    match answer {
        Answer::Yes => Entry::Prepared { tid, items },
        _ => Entry::Refused { tid },
    }
}

impl Store {
    /// What is said to a Prepare of these items.
    fn asked(&self, sender: u16, tid: Tid, items: Items) -> Result<Said, NoMemory>
        ensures { IfOk result (λ said. said ≡ asked self.now.rights self.now.node sender tid items self.now.shelf) }
    {
        let last = sender_in(self.senders.as_slice(), sender).last;
        let mut said = silent(self.alloc);
        let answer = if is_above(tid, last) {
            let answer = self.vote(sender, tid, &items);
            said.entry = Some(voted(tid, items, answer));
            answer
        } else {
            Answer::OldTid(last)
        };
        said.sends.push((sender, Message::Vote { tid, answer }))?;
        said.notes.push(Note::Voted {
            tid,
            to: sender,
            answer,
        })?;
        Ok(said)
    }

    /// A record and no answer.
    fn recorded(&self, entry: Entry) -> Said
        ensures { result ≡ record { entry = Some entry; sends = []; notes = [] } }
    {
        let mut said = silent(self.alloc);
        said.entry = Some(entry);
        said
    }

    /// What is said to a Commit.
    fn committed(&self, sender: u16, tid: Tid) -> Result<Said, NoMemory>
        ensures { IfOk result (λ said. said ≡ does self.now.rights self.now.node sender (messages.Commit tid) self.now.shelf) }
    {
        if !self.locks.is_held(tid) {
            return Ok(silent(self.alloc));
        }
        let mut said = self.recorded(Entry::Applied { tid });
        said.notes.push(Note::Applied { tid })?;
        Ok(said)
    }

    /// What is said to a worker's message with a tid of its own.
    fn does(&self, sender: u16, message: Message) -> Result<Said, NoMemory>
        ensures { IfOk result (λ said. said ≡ does self.now.rights self.now.node sender message self.now.shelf) }
    {
        match message {
            Message::Fetch { tid, oid } => self.fetched(sender, tid, oid),
            Message::Prepare { tid, items } => self.asked(sender, tid, items),
            Message::Commit { tid } => self.committed(sender, tid),
            Message::Abort { tid } if self.locks.is_held(tid) => {
                Ok(self.recorded(Entry::Released { tid }))
            }
            Message::Boot { boot } if boot > sender_in(self.senders.as_slice(), sender).boot => {
                Ok(self.recorded(Entry::BootSeen {
                    worker: sender,
                    boot,
                }))
            }
            _ => Ok(silent(self.alloc)),
        }
    }

    /// What is said to a message of a sender.
    fn says(&self, sender: u16, message: Message) -> Result<Said, NoMemory>
        ensures { IfOk result (λ said. said ≡ says self.now.rights self.now.node sender message self.now.shelf) }
    {
        if self.rights.is_worker(sender) && is_own(&message, sender) {
            self.does(sender, message)
        } else {
            Ok(silent(self.alloc))
        }
    }

    /// What is said to bytes of a sender.
    pub(crate) fn hears(&self, sender: u16, bytes: &[u8]) -> Result<Said, NoMemory>
        ensures said { IfOk result (λ said. said ≡ hears self.now.rights self.now.node sender (read_message bytes.now) self.now.shelf) }
        ensures spelled { IfOk result CanSpell }
        ensures kept { IfOk result (λ said. CanKeepSaid self.now.rights self.now.node said.entry self.now.shelf) }
    {
        match decode(self.alloc, bytes) {
            Ok(message) => self.says(sender, message),
            Err(DecodeError::Bad { .. }) => Ok(silent(self.alloc)),
            Err(DecodeError::Memory) => Err(AllocError),
        }
    }
}
