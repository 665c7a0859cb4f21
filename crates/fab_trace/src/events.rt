//! Lines of events.
ghost use Rattle.std.specs.Prelude.{◌≡◌, ◌++◌, ◌∷◌, [], OnOk, codes};
ghost use Rattle.std.specs.Fmt.{decimal};
ghost use Rattle.fab_language.specs.Words.{line, spaced, node_text};
ghost use Rattle.fab_trace.specs.Report.{inner_words, event_words, events_text};

use crate::targets::target_of;
use crate::words::{put_bytes, put_node, put_number};
use fab_base::{NoMemory, Seq};
use fab_lines::put_word;
use fab_net::{Event, Inner, Logged};
use fab_tree::resolved::Resolved;
use std::alloc::Global;
use std::collections::BTreeMap;

/// What happened at a node.
fn put_at(out: &mut Seq<u8>, start: &Resolved, word: &str, node: u16) -> Result<(), NoMemory>
    ensures { OnOk result (out.new ≡ out.old ++ spaced (word.now ∷ node_text start.now node ∷ [])) }
{
    put_word(out, word)?;
    put_node(out, start, node)
}

/// What happened between two nodes.
fn put_between(
    out: &mut Seq<u8>,
    start: &Resolved,
    word: &str,
    first: u16,
    second: u16,
) -> Result<(), NoMemory>
    ensures { OnOk result (out.new ≡ out.old ++ spaced (word.now ∷ node_text start.now first ∷ node_text start.now second ∷ [])) }
{
    put_at(out, start, word, first)?;
    put_node(out, start, second)
}

/// An event that may be cut, with the bytes that it delivers.
fn put_inner(
    out: &mut Seq<u8>,
    start: &Resolved,
    event: Inner,
    bytes: &[u8],
) -> Result<(), NoMemory>
    ensures { OnOk result (out.new ≡ out.old ++ spaced (inner_words start.now event bytes.now)) }
{
    match event {
        Inner::Begin(node) => put_at(out, start, "begin", node),
        Inner::Resume(node) => put_at(out, start, "resume", node),
        Inner::Deliver(sender, receiver) => {
            put_between(out, start, "deliver", sender, receiver)?;
            put_bytes(out, bytes)
        }
        Inner::Idle(worker, node) => put_between(out, start, "idle", worker, node),
        Inner::Recover(node) => put_at(out, start, "recover", node),
    }
}

/// An event, with the target of its post and the bytes that were delivered or posted in it.
fn put_event(
    alloc: Global,
    out: &mut Seq<u8>,
    start: &Resolved,
    event: Event,
    target: u16,
    bytes: &[u8],
) -> Result<(), NoMemory>
    ensures { OnOk result (out.new ≡ out.old ++ spaced (event_words start.now event target bytes.now)) }
{
    match event {
        Event::Begin(node) => put_inner(out, start, Inner::Begin(node), bytes),
        Event::Resume(node) => put_inner(out, start, Inner::Resume(node), bytes),
        Event::Deliver(sender, receiver) => {
            put_inner(out, start, Inner::Deliver(sender, receiver), bytes)
        }
        Event::Post(sender) => {
            put_between(out, start, "post", sender, target)?;
            put_bytes(out, bytes)
        }
        Event::Idle(worker, node) => put_inner(out, start, Inner::Idle(worker, node), bytes),
        Event::Crash(node) => put_at(out, start, "crash", node),
        Event::CrashIn(keep, event) => {
            put_word(out, "crashin")?;
            put_number(alloc, out, u64::from(keep))?;
            put_inner(out, start, event, bytes)
        }
        Event::Recover(node) => put_inner(out, start, Inner::Recover(node), bytes),
    }
}

/// The line of an event.
fn put_logged(
    alloc: Global,
    out: &mut Seq<u8>,
    start: &Resolved,
    number: u64,
    target: u16,
    logged: &Logged,
) -> Result<(), NoMemory>
    ensures { OnOk result (out.new ≡ out.old ++ line (codes "event" ++ spaced (decimal number ∷ event_words start.now logged.now.event target logged.now.bytes))) }
{
    out.extend(b"event")?;
    put_number(alloc, out, number)?;
    let bytes = logged.bytes.as_slice();
    put_event(alloc, out, start, logged.event, target, bytes)?;
    out.push(b'\n')
}

/// A line for each event, numbered from 1.
pub(crate) fn put_events(
    alloc: Global,
    out: &mut Seq<u8>,
    start: &Resolved,
    log: &[Logged],
) -> Result<(), NoMemory>
    ensures { OnOk result (out.new ≡ out.old ++ events_text start.now [] log.now) }
{
    let mut places = BTreeMap::new(alloc);
    for (index, logged) in log.iter().enumerate() {
        let target = target_of(&mut places, start.posts.as_slice(), logged.event)?;
        put_logged(alloc, out, start, index as u64 + 1, target, logged)?;
    }
    Ok(())
}
