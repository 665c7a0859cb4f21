//! Where attempts have changed objects of classes that are seen.
ghost use Rattle.std.specs.Prelude.{◌≡◌, OnOk};
ghost use Rattle.std.specs.List.{flat_map, list_any};
ghost use Rattle.fab_release.specs.Record.{changes_in};
ghost use Rattle.fab_record.specs.Kept.{NotesMore, at_store, changes, is_noted, is_shown_at};
ghost use Rattle.fab_record.specs.Views.{sight_in};

use crate::sights::Sights;
use fab_base::{NoMemory, Object, Oid, Tid};
use fab_net::Note;
use indexmap::IndexSet;

/// An attempt, and a store at which it changed an object of a class that is seen.
#[derive(Clone, Copy, Debug, PartialEq, Eq, Hash)]
pub(crate) struct ChangedAt {
    worker: u16,
    boot: u32,
    number: u32,
    store: u16,
}

/// An attempt, at a store.
fn at_store(tid: Tid, store: u16) -> ChangedAt
    ensures { result ≡ at_store tid store }
{
    ChangedAt {
        worker: tid.worker,
        boot: tid.boot,
        number: tid.number,
        store,
    }
}

/// Whether the attempt has changed an object of a class that is seen at the store.
pub(crate) fn is_noted(changed: &IndexSet<ChangedAt>, tid: Tid, store: u16) -> bool
    ensures { result ≡ is_noted (at_store tid store) changed.now.keys }
{
    changed.contains(&at_store(tid, store))
}

/// An object that an attempt has changed, if it is of a class that is seen.
fn put_change(
    changed: &mut IndexSet<ChangedAt>,
    sights: &Sights,
    tid: Tid,
    oid: Oid,
) -> Result<(), NoMemory>
    ensures { OnOk result (NotesMore changed.old.keys changed.new.keys (λ s t. changes (sight_in sights.now) tid s t oid)) }
{
    if sights.shows(oid.class) {
        changed.insert(at_store(tid, oid.store))?;
    }
    Ok(())
}

/// The objects that an attempt has written.
fn put_writes(
    changed: &mut IndexSet<ChangedAt>,
    sights: &Sights,
    tid: Tid,
    writes: &[(Oid, u32, Object)],
) -> Result<(), NoMemory>
    ensures { OnOk result (NotesMore changed.old.keys changed.new.keys (λ s t. list_any (λ w. changes (sight_in sights.now) tid s t w.0) writes.now)) }
{
    for write in writes {
        put_change(changed, sights, tid, write.0)?;
    }
    Ok(())
}

/// The objects that an attempt has made.
fn put_creates(
    changed: &mut IndexSet<ChangedAt>,
    sights: &Sights,
    tid: Tid,
    creates: &[(Oid, Object)],
) -> Result<(), NoMemory>
    ensures { OnOk result (NotesMore changed.old.keys changed.new.keys (λ s t. list_any (λ c. changes (sight_in sights.now) tid s t c.0) creates.now)) }
{
    for create in creates {
        put_change(changed, sights, tid, create.0)?;
    }
    Ok(())
}

/// What an attempt has changed, as its evaluation told it.
fn put_note(changed: &mut IndexSet<ChangedAt>, sights: &Sights, note: &Note) -> Result<(), NoMemory>
    ensures { OnOk result (NotesMore changed.old.keys changed.new.keys (λ s t. list_any (is_shown_at (sight_in sights.now) s) (changes_in t note.now))) }
{
    match note {
        Note::Ended {
            tid,
            writes,
            creates,
            ..
        } => {
            put_writes(changed, sights, *tid, writes.as_slice())?;
            put_creates(changed, sights, *tid, creates.as_slice())
        }
        _ => Ok(()),
    }
}

/// What attempts have changed behind more notes.
pub(crate) fn put_notes(
    changed: &mut IndexSet<ChangedAt>,
    sights: &Sights,
    notes: &[Note],
) -> Result<(), NoMemory>
    ensures { OnOk result (NotesMore changed.old.keys changed.new.keys (λ s t. list_any (is_shown_at (sight_in sights.now) s) (flat_map (changes_in t) notes.now))) }
{
    for note in notes {
        put_note(changed, sights, note)?;
    }
    Ok(())
}
