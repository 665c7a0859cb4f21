//! A store outside the set.

ghost use Rattle.std.specs.Prelude.{◌≡◌, None, IfOk, OnOk, IsTrue};
ghost use Rattle.fab_base.specs.declared.message.Answer.TheVariants.{Yes};
ghost use Rattle.fab_base.specs.FlatMap.{ascends as roots_ascend};
ghost use Rattle.fab_protocol.specs.Stores.{keeps, shelf_at_start};
ghost use Rattle.fab_release.specs.Replay.{applies, votes};
ghost use Rattle.fab_release.specs.Sights.{Public, Sight};

use crate::changes::{keep_record, put_rows};
use fab_base::{Answer, Entry, Items, NoMemory, Object, Oid, Seq, Tid};
use fab_protocol::Sender;
use fab_store::{none_heard, table_at_start};
use fab_versions::Table;
use std::alloc::Global;
use std::marker::Model;

/// A store outside the set: its objects, what the set's workers have prepared there, what it
/// remembers of each sender, and what was asked last.
#[derive(Drop)]
pub struct Stored {
    pub(crate) alloc: Global,
    pub(crate) table: Table,
    pub(crate) prepared: Vec<(Tid, Items)>,
    pub(crate) senders: Vec<Sender>,
    pub(crate) asked: Option<(Tid, Items)>,
}

impl Model for Stored {
    ghost use Rattle.fab_release.specs.Replay.{StoreSeen};

    ghost Value = { StoreSeen };

    ghost view = { λ s. record { shelf = record { rows = s.table.rows; prepared = s.prepared.items; senders = s.senders.items }; asked = s.asked } };
}

impl Stored {
    /// A store of the roots that are its own, each at version 1, of which nobody has asked anything.
    pub fn make(alloc: Global, store: u16, roots: &[(Oid, Object)]) -> Result<Stored, NoMemory>
        requires ascending { IsTrue (roots_ascend roots.now) }
        ensures { IfOk result (λ x. x ≡ record { shelf = shelf_at_start roots.now store; asked = None }) }
    {
        Ok(Stored {
            alloc,
            table: table_at_start(alloc, store, roots)?,
            prepared: Vec::new(alloc),
            senders: none_heard(alloc)?,
            asked: None,
        })
    }

    /// It keeps what a record says.
    pub(crate) fn keep(&mut self, alloc: Global, entry: Entry) -> Result<(), NoMemory>
        ensures { OnOk result (self.new ≡ record self.old { shelf = keeps entry self.old.shelf }) }
    {
        keep_record(
            alloc,
            &mut self.table,
            &mut self.prepared,
            &mut self.senders,
            entry,
        )
    }

    /// Its vote on a Prepare of a worker in the set: a Yes prepares what was asked last under the
    /// tid that the vote names.
    pub fn vote(&mut self, tid: Tid, answer: Answer) -> Result<(), NoMemory>
        ensures { OnOk result ((sight : Sight) (P : Public) → self.new ≡ votes sight P tid answer self.old) }
    {
        match answer {
            Answer::Yes => self.prepare(tid),
            Answer::OldTid(_) => Ok(()),
            _ => self.keep(self.alloc, Entry::Refused { tid }),
        }
    }

    /// What was asked last is prepared under this tid.
    fn prepare(&mut self, tid: Tid) -> Result<(), NoMemory>
        ensures { OnOk result ((sight : Sight) (P : Public) → self.new ≡ votes sight P tid Yes self.old) }
    {
        let items = match &self.asked {
            Some((_, items)) => items.copy(self.alloc)?,
            None => return Ok(()),
        };
        self.keep(self.alloc, Entry::Prepared { tid, items })
    }

    /// What an attempt of a worker outside the set leaves here stands.
    pub fn apply(&mut self, rows: Seq<(Oid, u32, Object)>) -> Result<(), NoMemory>
        ensures { OnOk result ((sight : Sight) (P : Public) → self.new ≡ applies sight P rows self.old) }
    {
        put_rows(&mut self.table, rows)
    }
}
