//! What a message changes.

ghost use Rattle.std.specs.Prelude.{◌≡◌, OnOk};
ghost use Rattle.fab_protocol.specs.Stores.{is_prepared};
ghost use Rattle.fab_release.specs.Replay.{store_hears};
ghost use Rattle.fab_release.specs.Sights.{Public, Sight};
ghost use Rattle.fab_shelf.specs.Shelves.{entry_of, remembered};

use crate::changes::is_one_tid;
use crate::stored::Stored;
use fab_base::{Entry, Message, NoMemory, Tid};
use fab_rights::Rights;
use fab_store::sender_in;
use std::alloc::Global;

impl Stored {
    /// Whether something is prepared under a tid.
    fn is_prepared(&self, tid: Tid) -> bool
        ensures { result ≡ is_prepared tid self.now.shelf }
    {
        self.prepared.iter().any(|one| is_one_tid(one.0, tid))
    }

    /// The record of what a worker sends, but for a Prepare.
    fn entry_of(&self, rights: &Rights, sender: u16, message: &Message) -> Option<Entry>
        ensures { result ≡ entry_of rights.now sender message.now self.now.shelf }
    {
        if !rights.is_worker(sender) {
            return None;
        }
        match message {
            Message::Commit { tid } if tid.worker == sender && self.is_prepared(*tid) => {
                Some(Entry::Applied { tid: *tid })
            }
            Message::Abort { tid } if tid.worker == sender && self.is_prepared(*tid) => {
                Some(Entry::Released { tid: *tid })
            }
            Message::Boot { boot } if *boot > sender_in(self.senders.as_slice(), sender).boot => {
                Some(Entry::BootSeen {
                    worker: sender,
                    boot: *boot,
                })
            }
            _ => None,
        }
    }

    /// What a Prepare asks is kept until its vote is told.
    fn remember(&mut self, message: Message)
        ensures { self.new ≡ remembered message self.old }
    {
        match message {
            Message::Prepare { tid, items } => self.asked = Some((tid, items)),
            _ => {}
        }
    }

    /// It hears a message. One to which nothing is said is dropped.
    pub fn hear(
        &mut self,
        alloc: Global,
        rights: &Rights,
        store: u16,
        sender: u16,
        message: Message,
    ) -> Result<(), NoMemory>
        ensures { OnOk result ((sight : Sight) (P : Public) → P.rights ≡ rights.now → self.new ≡ store_hears sight P store sender message self.old) }
    {
        match self.entry_of(rights, sender, &message) {
            Some(entry) => self.keep(alloc, entry),
            None => {
                self.remember(message);
                Ok(())
            }
        }
    }
}
