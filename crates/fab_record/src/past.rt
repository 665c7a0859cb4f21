//! What is kept of a log, to read the release record off it without looking back.
ghost use Rattle.std.specs.Prelude.{◌≡◌, ◌<◌, [], ◌∷◌, ◌++◌, ◌==◌, ℕ, List, length, fold, if◌then◌else◌, OnOk};
ghost use Rattle.fab_base.specs.FlatMap.{is_among};
ghost use Rattle.fab_net.specs.declared.note.Logged.{Logged as AnyLogged};
ghost use Rattle.fab_release.specs.Record.{seen_behind};
ghost use Rattle.fab_release.specs.Sights.{Sight};
ghost use Rattle.fab_record.specs.Kept.{AreSame, IsPast, has_changed, names_at, touched_at};
ghost use Rattle.fab_record.specs.Views.{sight_in};

use crate::changes::{ChangedAt, is_noted};
use crate::events::node_of_event;
use crate::names::is_in;
use crate::sights::Sights;
use crate::{changes, names};
use fab_base::{NoMemory, Oid, Tid};
use fab_net::{Logged, Note};
use indexmap::IndexSet;
use std::alloc::Global;

/// Of a log so far: by the number of a worker the objects that its attempt has touched in view, and
/// where attempts changed objects of classes that are seen.
pub(crate) struct Past {
    pub(crate) touched: Vec<IndexSet<Oid>>,
    pub(crate) changed: IndexSet<ChangedAt>,
}

impl Drop for Past {
    fn drop(self) {
        let Past { touched, changed } = self;
    }
}

impl Past {
    /// Of no event.
    pub(crate) fn new(alloc: Global) -> Past
        ensures { (sight : Sight) → IsPast sight [] result }
    {
        Past {
            touched: Vec::new(alloc),
            changed: IndexSet::new(alloc),
        }
    }

    /// Whether the attempt of a worker has touched the object in view.
    pub(crate) fn has_touched(&self, worker: u16, oid: Oid) -> bool
        ensures { result ≡ is_among oid (touched_at self.now worker) }
    {
        match self.touched.get(usize::from(worker)) {
            Some(names) => is_in(names, oid),
            None => false,
        }
    }

    /// Whether an attempt has changed an object of a class that is seen at the store.
    pub(crate) fn has_changed(&self, store: u16, tid: Tid) -> bool
        ensures { result ≡ has_changed self.now store tid }
    {
        is_noted(&self.changed, tid, store)
    }

    /// One more event.
    pub(crate) fn put(
        &mut self,
        alloc: Global,
        sights: &Sights,
        logged: &Logged,
    ) -> Result<(), NoMemory>
        ensures { OnOk result ((log : List AnyLogged) → IsPast (sight_in sights.now) log self.old → IsPast (sight_in sights.now) (log ++ logged.now ∷ []) self.new) }
    {
        let notes = logged.notes.as_slice();
        changes::put_notes(&mut self.changed, sights, notes)?;
        match node_of_event(logged.event) {
            None => Ok(()),
            Some(node) => put_touched(&mut self.touched, alloc, sights, node, notes),
        }
    }
}

/// Room for the set of the worker of this number.
fn make_room(touched: &mut Vec<IndexSet<Oid>>, alloc: Global, worker: u16) -> Result<(), NoMemory>
    ensures made { OnOk result (worker < length touched.new.items) }
    ensures same { OnOk result ((n : ℕ) → names_at touched.new.items n ≡ names_at touched.old.items n) }
{
    while touched.len() <= usize::from(worker) {
        touched.push(IndexSet::new(alloc))?;
    }
    Ok(())
}

/// What the attempt of a worker has touched in view behind more of its notes.
fn put_touched(
    touched: &mut Vec<IndexSet<Oid>>,
    alloc: Global,
    sights: &Sights,
    worker: u16,
    notes: &[Note],
) -> Result<(), NoMemory>
    ensures { OnOk result ((n : ℕ) → AreSame (names_at touched.new.items n) (fold (seen_behind (sight_in sights.now)) (names_at touched.old.items n) (if worker == n then notes.now else []))) }
{
    make_room(touched, alloc, worker)?;
    names::put_notes(&mut touched[usize::from(worker)], sights, notes)
}
