//! What the notes of an event release.
ghost use Rattle.std.specs.Prelude.{◌≡◌, [], ◌∷◌, ◌++◌, ℕ, List, OnOk};
ghost use Rattle.std.specs.List.{flat_map};
ghost use Rattle.fab_base.specs.declared.object.Oid.{Oid as AnyOid};
ghost use Rattle.fab_net.specs.declared.note.Note.TheVariants.{Applied};
ghost use Rattle.fab_release.specs.declared.release.Release.TheVariants.{Begin, Decided, Voted};
ghost use Rattle.fab_release.specs.Record.{downs_to, evaluated, gots_to};
ghost use Rattle.fab_record.specs.Places.{entry_if, is_new, lacking, of_note, sight_at, told, touched_at};

use crate::names::is_in;
use crate::past::Past;
use crate::sights::Sights;
use fab_base::{Answer, NoMemory, Oid, Seq, Tid, Value};
use fab_net::Note;
use fab_release::{Release, Released};
use indexmap::IndexSet;
use std::alloc::Global;

/// Where entries come from: what the set sees, what is kept of the log before the event, the event's
/// node, and whether what comes of the event isn't sent.
#[derive(Clone, Copy)]
pub(crate) struct Place<'a> {
    pub(crate) alloc: Global,
    pub(crate) sights: &'a Sights,
    pub(crate) past: &'a Past,
    pub(crate) node: u16,
    pub(crate) quiet: bool,
}

/// One more entry.
#[tactic(auto, unfolding(crate::specs::Places::told))]
pub(crate) fn put(
    place: &Place<'_>,
    out: &mut Seq<Released>,
    release: Release,
) -> Result<(), NoMemory>
    ensures { OnOk result (out.new ≡ told place.now.quiet out.old (release ∷ [])) }
{
    out.push(Released {
        quiet: place.quiet,
        release,
    })
}

/// One more entry, if it is one.
#[tactic(auto, unfolding(crate::specs::Places::told))]
fn put_if(
    place: &Place<'_>,
    out: &mut Seq<Released>,
    is_one: bool,
    release: Release,
) -> Result<(), NoMemory>
    ensures { OnOk result (out.new ≡ told place.now.quiet out.old (entry_if is_one release)) }
{
    if is_one {
        put(place, out, release)?;
    }
    Ok(())
}

/// A value, if it was downgraded into view.
fn put_down(place: &Place<'_>, out: &mut Seq<Released>, down: &(u16, Value)) -> Result<(), NoMemory>
    ensures { OnOk result (out.new ≡ told place.now.quiet out.old (downs_to (sight_at place.now) place.now.node (down.now ∷ []))) }
{
    let release = Release::Down {
        worker: place.node,
        value: down.1,
    };
    put_if(place, out, place.sights.into_view(down.0), release)
}

/// Each value that was downgraded into view.
fn put_downs(
    place: &Place<'_>,
    out: &mut Seq<Released>,
    downs: &[(u16, Value)],
) -> Result<(), NoMemory>
    ensures { OnOk result (out.new ≡ told place.now.quiet out.old (downs_to (sight_at place.now) place.now.node downs.now)) }
{
    for down in downs {
        put_down(place, out, down)?;
    }
    Ok(())
}

/// Whether an object is one of a store outside the set that hasn't been touched in view before.
fn is_new(place: &Place<'_>, fresh: &IndexSet<Oid>, oid: Oid) -> bool
    ensures { result ≡ is_new place.now fresh.now.keys oid }
{
    let is_touched = is_in(fresh, oid) || place.past.has_touched(place.node, oid);
    !place.sights.has(oid.store) && !is_touched
}

/// The version of an object that is touched in view, if it hasn't been before.
fn put_got(
    place: &Place<'_>,
    out: &mut Seq<Released>,
    fresh: &mut IndexSet<Oid>,
    touch: &(u16, Oid, u32),
) -> Result<(), NoMemory>
    ensures { OnOk result ((more : List (ℕ × AnyOid × ℕ)) →
        told place.now.quiet out.new (gots_to (sight_at place.now) place.now.node (fresh.new.keys ++ touched_at place.now) more)
        ≡ told place.now.quiet out.old (gots_to (sight_at place.now) place.now.node (fresh.old.keys ++ touched_at place.now) (touch.now ∷ more))) }
{
    if !place.sights.is_in_view(touch) {
        return Ok(());
    }
    let release = Release::Got {
        worker: place.node,
        version: touch.2,
    };
    put_if(place, out, is_new(place, fresh, touch.1), release)?;
    fresh.insert(touch.1)?;
    Ok(())
}

/// The version of each object that is touched in view and hasn't been before.
fn put_gots(
    place: &Place<'_>,
    out: &mut Seq<Released>,
    touches: &[(u16, Oid, u32)],
) -> Result<(), NoMemory>
    ensures { OnOk result (out.new ≡ told place.now.quiet out.old (gots_to (sight_at place.now) place.now.node (touched_at place.now) touches.now)) }
{
    let mut fresh = IndexSet::new(place.alloc);
    for touch in touches {
        put_got(place, out, &mut fresh, touch)?;
    }
    Ok(())
}

/// What an evaluation releases, with how it came out.
#[tactic(auto, using(crate::proofs::Telling::in_parts))]
fn put_evaluated(
    place: &Place<'_>,
    out: &mut Seq<Released>,
    touches: &[(u16, Oid, u32)],
    downs: &[(u16, Value)],
    outcome: Release,
) -> Result<(), NoMemory>
    ensures { OnOk result (out.new ≡ told place.now.quiet out.old (evaluated (sight_at place.now) place.now.node (touched_at place.now) touches.now downs.now outcome)) }
{
    put_downs(place, out, downs)?;
    put_gots(place, out, touches)?;
    put(place, out, outcome)
}

/// What an evaluation that lacks an object releases.
#[tactic(auto, using(crate::proofs::Telling::in_parts))]
fn put_need(
    place: &Place<'_>,
    out: &mut Seq<Released>,
    touches: &[(u16, Oid, u32)],
    downs: &[(u16, Value)],
    oid: Oid,
) -> Result<(), NoMemory>
    ensures { OnOk result (out.new ≡ told place.now.quiet out.old (lacking (sight_at place.now) place.now.node (touched_at place.now) touches.now downs.now oid)) }
{
    put_downs(place, out, downs)?;
    put_gots(place, out, touches)?;
    let release = Release::Ask { worker: place.node };
    put_if(place, out, place.sights.has(oid.store), release)
}

/// An attempt that is begun.
fn put_begin(place: &Place<'_>, out: &mut Seq<Released>, request: u32) -> Result<(), NoMemory>
    ensures { OnOk result (out.new ≡ told place.now.quiet out.old (Begin place.now.node request ∷ [])) }
{
    let worker = place.node;
    put(place, out, Release::Begin { worker, request })
}

/// An attempt that is over.
fn put_decided(place: &Place<'_>, out: &mut Seq<Released>, commit: bool) -> Result<(), NoMemory>
    ensures { OnOk result (out.new ≡ told place.now.quiet out.old (Decided place.now.node commit ∷ [])) }
{
    let worker = place.node;
    put(place, out, Release::Decided { worker, commit })
}

/// A store's vote, if it is to a node of the set.
fn put_voted(
    place: &Place<'_>,
    out: &mut Seq<Released>,
    tid: Tid,
    to: u16,
    answer: Answer,
) -> Result<(), NoMemory>
    ensures { OnOk result (out.new ≡ told place.now.quiet out.old (entry_if ((sight_at place.now).has to) (Voted place.now.node tid answer))) }
{
    let store = place.node;
    let release = Release::Voted { store, tid, answer };
    put_if(place, out, place.sights.has(to), release)
}

/// What a note releases.
#[tactic(auto, using(crate::proofs::Telling::nothing))]
fn put_note(place: &Place<'_>, out: &mut Seq<Released>, note: &Note) -> Result<(), NoMemory>
    ensures { OnOk result (out.new ≡ told place.now.quiet out.old (of_note place.now note.now)) }
{
    let node = place.node;
    match note {
        Note::Begun { request, .. } => put_begin(place, out, *request),
        Note::Need {
            oid,
            touches,
            downs,
            ..
        } => put_need(place, out, touches.as_slice(), downs.as_slice(), *oid),
        Note::Ended { touches, downs, .. } => {
            let outcome = Release::Ended { worker: node };
            put_evaluated(place, out, touches.as_slice(), downs.as_slice(), outcome)
        }
        Note::Failed { touches, downs, .. } => {
            let outcome = Release::Failed { worker: node };
            put_evaluated(place, out, touches.as_slice(), downs.as_slice(), outcome)
        }
        Note::Stopped { touches, downs, .. } => {
            let outcome = Release::Stopped { worker: node };
            put_evaluated(place, out, touches.as_slice(), downs.as_slice(), outcome)
        }
        Note::Decided { commit, .. } => put_decided(place, out, *commit),
        Note::Applied { tid } => put_applied(place, out, *tid),
        Note::Voted { tid, to, answer } => put_voted(place, out, *tid, *to, *answer),
        Note::Closed { .. } => Ok(()),
    }
}

/// What a store's note that it applied an attempt releases.
fn put_applied(place: &Place<'_>, out: &mut Seq<Released>, tid: Tid) -> Result<(), NoMemory>
    ensures { OnOk result (out.new ≡ told place.now.quiet out.old (of_note place.now (Applied tid))) }
{
    let is_seen = !place.sights.has(tid.worker) && place.past.has_changed(place.node, tid);
    let release = Release::Applied {
        store: place.node,
        tid,
    };
    put_if(place, out, is_seen, release)
}

/// What notes release.
pub(crate) fn put_notes(
    place: &Place<'_>,
    out: &mut Seq<Released>,
    notes: &[Note],
) -> Result<(), NoMemory>
    ensures { OnOk result (out.new ≡ told place.now.quiet out.old (flat_map (of_note place.now) notes.now)) }
{
    for note in notes {
        put_note(place, out, note)?;
    }
    Ok(())
}
