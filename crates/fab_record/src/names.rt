//! The objects that an attempt has touched in view.
ghost use Rattle.std.specs.Prelude.{◌≡◌, ◌++◌, map, fold, OnOk};
ghost use Rattle.std.specs.List.{filter};
ghost use Rattle.fab_base.specs.FlatMap.{is_among};
ghost use Rattle.fab_release.specs.Record.{is_in_view, seen_behind};
ghost use Rattle.fab_record.specs.Kept.{AreSame, seen_touch};
ghost use Rattle.fab_record.specs.Views.{sight_in};

use crate::sights::Sights;
use fab_base::{NoMemory, Oid};
use fab_net::Note;
use indexmap::IndexSet;

/// Whether a name is in the set.
pub(crate) fn is_in(names: &IndexSet<Oid>, oid: Oid) -> bool
    ensures { result ≡ is_among oid names.now.keys }
{
    names.contains(&oid)
}

/// An object that is touched at a site, if that is in view.
fn put_touch(
    names: &mut IndexSet<Oid>,
    sights: &Sights,
    touch: &(u16, Oid, u32),
) -> Result<(), NoMemory>
    ensures { OnOk result (AreSame names.new.keys (names.old.keys ++ seen_touch (sight_in sights.now) touch.now)) }
{
    if sights.is_in_view(touch) {
        names.insert(touch.1)?;
    }
    Ok(())
}

/// The objects that are touched in view, beside others.
fn put_touches(
    names: &mut IndexSet<Oid>,
    sights: &Sights,
    touches: &[(u16, Oid, u32)],
) -> Result<(), NoMemory>
    ensures { OnOk result (AreSame names.new.keys (names.old.keys ++ map (λ x. x.1) (filter (is_in_view (sight_in sights.now)) touches.now))) }
{
    for touch in touches {
        put_touch(names, sights, touch)?;
    }
    Ok(())
}

/// What its attempt has touched in view behind one more note of a worker.
fn put_note(names: &mut IndexSet<Oid>, sights: &Sights, note: &Note) -> Result<(), NoMemory>
    ensures { OnOk result (AreSame names.new.keys (seen_behind (sight_in sights.now) names.old.keys note.now)) }
{
    match note {
        Note::Begun { .. } => {
            names.clear();
            Ok(())
        }
        Note::Need { touches, .. }
        | Note::Ended { touches, .. }
        | Note::Failed { touches, .. }
        | Note::Stopped { touches, .. } => put_touches(names, sights, touches.as_slice()),
        Note::Decided { .. } | Note::Applied { .. } | Note::Voted { .. } | Note::Closed { .. } =>
            Ok(()),
    }
}

/// What its attempt has touched in view behind more notes of a worker.
pub(crate) fn put_notes(
    names: &mut IndexSet<Oid>,
    sights: &Sights,
    notes: &[Note],
) -> Result<(), NoMemory>
    ensures { OnOk result (AreSame names.new.keys (fold (seen_behind (sight_in sights.now)) names.old.keys notes.now)) }
{
    for note in notes {
        put_note(names, sights, note)?;
    }
    Ok(())
}
