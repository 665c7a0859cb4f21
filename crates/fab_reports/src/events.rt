//! What a line says of an event.
ghost use Rattle.fab_wire.specs.Reading.{Gives};
ghost use Rattle.fab_reports.specs.Reading.{inner_by, inner_at, event_by, event_at};

use crate::kinds::{EventKind, InnerKind};
use crate::line::{ShownEvent, ShownInner};
use crate::scanning::{bytes_until, u32_until, word_until};
use crate::word::one_of;
use fab_wire::Stop;
use std::alloc::Global;

const INNER_KINDS: [InnerKind; 5] = [
    InnerKind::Begin,
    InnerKind::Resume,
    InnerKind::Deliver,
    InnerKind::Idle,
    InnerKind::Recover,
];

const EVENT_KINDS: [EventKind; 8] = [
    EventKind::Inner(InnerKind::Begin),
    EventKind::Inner(InnerKind::Resume),
    EventKind::Inner(InnerKind::Deliver),
    EventKind::Inner(InnerKind::Idle),
    EventKind::Inner(InnerKind::Recover),
    EventKind::Post,
    EventKind::Crash,
    EventKind::CrashIn,
];

fn inner_of_kind(alloc: Global, kind: InnerKind, bytes: &[u8]) -> Result<(ShownInner, &[u8]), Stop>
    ensures { Gives (λ x. (x.0, x.1.now)) result (inner_by kind bytes.now) }
{
    match kind {
        InnerKind::Begin => {
            let (worker, rest) = word_until(alloc, bytes, b'\n')?;
            Ok((ShownInner::Begin { worker }, rest))
        }
        InnerKind::Resume => {
            let (worker, rest) = word_until(alloc, bytes, b'\n')?;
            Ok((ShownInner::Resume { worker }, rest))
        }
        InnerKind::Deliver => {
            let (sender, rest) = word_until(alloc, bytes, b' ')?;
            let (receiver, rest) = word_until(alloc, rest, b' ')?;
            let (bytes, rest) = bytes_until(alloc, rest, b'\n')?;
            let event = ShownInner::Deliver {
                sender,
                receiver,
                bytes,
            };
            Ok((event, rest))
        }
        InnerKind::Idle => {
            let (worker, rest) = word_until(alloc, bytes, b' ')?;
            let (node, rest) = word_until(alloc, rest, b'\n')?;
            Ok((ShownInner::Idle { worker, node }, rest))
        }
        InnerKind::Recover => {
            let (node, rest) = word_until(alloc, bytes, b'\n')?;
            Ok((ShownInner::Recover { node }, rest))
        }
    }
}

#[tactic(auto, unfolding(crate::specs::Reading::inner_at))]
fn inner_of(alloc: Global, bytes: &[u8]) -> Result<(ShownInner, &[u8]), Stop>
    ensures { Gives (λ x. (x.0, x.1.now)) result (inner_at bytes.now) }
{
    let (kind, rest) = one_of(&INNER_KINDS, bytes)?;
    inner_of_kind(alloc, kind, rest)
}

fn event_of_kind(alloc: Global, kind: EventKind, bytes: &[u8]) -> Result<(ShownEvent, &[u8]), Stop>
    ensures { Gives (λ x. (x.0, x.1.now)) result (event_by kind bytes.now) }
{
    match kind {
        EventKind::Inner(kind) => {
            let (event, rest) = inner_of_kind(alloc, kind, bytes)?;
            Ok((ShownEvent::Inner(event), rest))
        }
        EventKind::Post => {
            let (sender, rest) = word_until(alloc, bytes, b' ')?;
            let (receiver, rest) = word_until(alloc, rest, b' ')?;
            let (bytes, rest) = bytes_until(alloc, rest, b'\n')?;
            let event = ShownEvent::Post {
                sender,
                receiver,
                bytes,
            };
            Ok((event, rest))
        }
        EventKind::Crash => {
            let (node, rest) = word_until(alloc, bytes, b'\n')?;
            Ok((ShownEvent::Crash { node }, rest))
        }
        EventKind::CrashIn => {
            let (keep, rest) = u32_until(bytes, b' ')?;
            let (event, rest) = inner_of(alloc, rest)?;
            Ok((ShownEvent::CrashIn { keep, event }, rest))
        }
    }
}

/// What stands behind an event's number.
#[tactic(auto, unfolding(crate::specs::Reading::event_at))]
pub(crate) fn event_of(alloc: Global, bytes: &[u8]) -> Result<(ShownEvent, &[u8]), Stop>
    ensures { Gives (λ x. (x.0, x.1.now)) result (event_at bytes.now) }
{
    let (kind, rest) = one_of(&EVENT_KINDS, bytes)?;
    event_of_kind(alloc, kind, rest)
}
