//! What a run releases, read off its log.
ghost use Rattle.std.specs.Prelude.{◌≡◌, [], ◌∷◌, ◌++◌, false, IfOk, OnOk};
ghost use Rattle.fab_release.specs.Bundles.{sight_of};
ghost use Rattle.fab_release.specs.Record.{received, recovered, released, said, unless_in};
ghost use Rattle.fab_release.specs.declared.release.Release.TheVariants.{Crash};
ghost use Rattle.fab_rights.specs.Computed.{has_bit};
ghost use Rattle.fab_record.specs.Kept.{kept_cut, kept_done, kept_event, kept_inner};
ghost use Rattle.fab_record.specs.Places.{sight_at, told};
ghost use Rattle.fab_record.specs.Views.{sight_in};

use crate::entries::{Place, put, put_notes};
use crate::past::Past;
use crate::sights::Sights;
use fab_base::{NoMemory, Seq};
use fab_net::{Event, Inner, Logged, node_of};
use fab_places::Seen;
use fab_release::{Release, Released};
use fab_tree::resolved::Resolved;
use std::alloc::Global;

/// The bytes of a node of the set, where they reach a node.
#[tactic(auto, using(crate::proofs::Telling::nothing))]
fn put_received(
    place: &Place<'_>,
    out: &mut Seq<Released>,
    inner: Inner,
    bytes: &[u8],
) -> Result<(), NoMemory>
    ensures { OnOk result (out.new ≡ told place.now.quiet out.old (received (sight_at place.now) inner bytes.now)) }
{
    match inner {
        Inner::Deliver(sender, node) => {
            if !place.sights.has(sender) {
                return Ok(());
            }
            let bytes = Seq::from_slice(place.alloc, bytes)?;
            let release = Release::Received {
                node,
                sender,
                bytes,
            };
            put(place, out, release)
        }
        _ => Ok(()),
    }
}

/// A node's recovery.
#[tactic(auto, using(crate::proofs::Telling::nothing))]
fn put_recovered(place: &Place<'_>, out: &mut Seq<Released>, inner: Inner) -> Result<(), NoMemory>
    ensures { OnOk result (out.new ≡ told place.now.quiet out.old (recovered (sight_at place.now) inner)) }
{
    match inner {
        Inner::Recover(node) => put(place, out, Release::Recover { node }),
        _ => Ok(()),
    }
}

/// What an event of a node outside the set releases.
#[tactic(auto, using(crate::proofs::Telling::in_parts))]
fn put_inner(
    alloc: Global,
    sights: &Sights,
    past: &Past,
    out: &mut Seq<Released>,
    quiet: bool,
    inner: Inner,
    logged: &Logged,
) -> Result<(), NoMemory>
    ensures { OnOk result (out.new ≡ told quiet out.old (kept_inner (sight_in sights.now) past.now inner logged.now.bytes logged.now.notes)) }
{
    let place = Place {
        alloc,
        sights,
        past,
        node: node_of(inner),
        quiet,
    };
    put_received(&place, out, inner, logged.bytes.as_slice())?;
    put_notes(&place, out, logged.notes.as_slice())?;
    put_recovered(&place, out, inner)
}

/// A node's crash.
fn put_crash(out: &mut Seq<Released>, node: u16) -> Result<(), NoMemory>
    ensures { OnOk result (out.new ≡ out.old ++ record { quiet = false; release = Crash node } ∷ []) }
{
    out.push(Released {
        quiet: false,
        release: Release::Crash { node },
    })
}

/// What an event releases that is done.
#[tactic(auto, unfolding(crate::specs::Places::told))]
fn put_done(
    alloc: Global,
    sights: &Sights,
    past: &Past,
    out: &mut Seq<Released>,
    inner: Inner,
    logged: &Logged,
) -> Result<(), NoMemory>
    ensures { OnOk result (out.new ≡ out.old ++ kept_done (sight_in sights.now) past.now inner logged.now) }
{
    if sights.has(node_of(inner)) {
        return Ok(());
    }
    put_inner(alloc, sights, past, out, false, inner, logged)
}

/// What an event releases that a crash cuts. If its record isn't whole, it is a crash and no more.
#[tactic(auto, unfolding(crate::specs::Places::told))]
fn put_cut(
    alloc: Global,
    sights: &Sights,
    past: &Past,
    out: &mut Seq<Released>,
    inner: Inner,
    logged: &Logged,
) -> Result<(), NoMemory>
    ensures { OnOk result (out.new ≡ out.old ++ kept_cut (sight_in sights.now) past.now inner logged.now) }
{
    if sights.has(node_of(inner)) {
        return Ok(());
    }
    if logged.whole {
        put_inner(alloc, sights, past, out, true, inner, logged)?;
    }
    put_crash(out, node_of(inner))
}

/// What an event releases.
fn put_event(
    alloc: Global,
    sights: &Sights,
    past: &Past,
    out: &mut Seq<Released>,
    logged: &Logged,
) -> Result<(), NoMemory>
    ensures { OnOk result (out.new ≡ out.old ++ kept_event (sight_in sights.now) past.now logged.now.event logged.now) }
{
    match logged.event {
        Event::Begin(n) => put_done(alloc, sights, past, out, Inner::Begin(n), logged),
        Event::Resume(n) => put_done(alloc, sights, past, out, Inner::Resume(n), logged),
        Event::Deliver(a, b) => put_done(alloc, sights, past, out, Inner::Deliver(a, b), logged),
        Event::Idle(n, s) => put_done(alloc, sights, past, out, Inner::Idle(n, s), logged),
        Event::Recover(n) => put_done(alloc, sights, past, out, Inner::Recover(n), logged),
        Event::CrashIn(_, inner) => put_cut(alloc, sights, past, out, inner, logged),
        Event::Crash(n) => {
            if sights.has(n) {
                Ok(())
            } else {
                put_crash(out, n)
            }
        }
        Event::Post(_) => Ok(()),
    }
}

/// The release record of a set of nodes: what a run of a program whose log this is releases to the
/// nodes that have their bits, of which some see these labels and classes.
pub fn released(
    alloc: Global,
    nodes: u64,
    start: &Resolved,
    seen: &Seen,
    log: &[Logged],
) -> Result<Seq<Released>, NoMemory>
    ensures exact { IfOk result (λ out. out ≡ released (sight_of (has_bit seen.now.labels) (has_bit seen.now.classes) (has_bit nodes) start.now) log.now) }
{
    let sights = Sights::make(alloc, nodes, start, seen)?;
    let mut past = Past::new(alloc);
    let mut out = Seq::new(alloc);
    for logged in log {
        put_event(alloc, &sights, &past, &mut out, logged)?;
        past.put(alloc, &sights, logged)?;
    }
    Ok(out)
}
