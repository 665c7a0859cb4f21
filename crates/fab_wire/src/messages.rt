//! Kinds of messages, read from the front of some bytes.

ghost use Rattle.std.specs.Prelude.{◌≤◌};
ghost use Rattle.fab_wire.specs.Reading.{Gives, why_at, answer_at, body_by, message_at, all_of};

use crate::fields::{oid_of, tid_of};
use crate::lists::{items_of, object_of};
use crate::numbers::{byte_of, u32_of};
use crate::stop::Stop;
use fab_base::{Answer, Message, Why};
use std::alloc::Global;

/// The version of each message that is sent, and that is read.
pub(crate) const SENT_VERSION: u8 = 1;

#[tactic(auto, unfolding(crate::specs::Reading::why_at))]
fn why_of(bytes: &[u8]) -> Result<(Why, &[u8]), Stop>
    ensures { Gives (λ x. (x.0, x.1.now)) result (why_at bytes.now) }
{
    let (byte, rest) = byte_of(bytes, 1, 2)?;
    if byte == 1 {
        Ok((Why::Missing, rest))
    } else {
        Ok((Why::Rights, rest))
    }
}

#[tactic(auto, unfolding(crate::specs::Reading::answer_at))]
fn answer_of(bytes: &[u8]) -> Result<(Answer, &[u8]), Stop>
    ensures { Gives (λ x. (x.0, x.1.now)) result (answer_at bytes.now) }
{
    let (tag, rest) = byte_of(bytes, 0, 6)?;
    match tag {
        0 => Ok((Answer::Yes, rest)),
        1 => {
            let (oid, rest) = oid_of(rest)?;
            let (version, rest) = u32_of(rest)?;
            Ok((Answer::Stale(oid, version), rest))
        }
        2 => {
            let (tid, rest) = tid_of(rest)?;
            Ok((Answer::Locked(tid), rest))
        }
        3 => {
            let (oid, rest) = oid_of(rest)?;
            Ok((Answer::Rights(oid), rest))
        }
        4 => {
            let (tid, rest) = tid_of(rest)?;
            Ok((Answer::OldTid(tid), rest))
        }
        5 => {
            let (oid, rest) = oid_of(rest)?;
            Ok((Answer::IllFormed(oid), rest))
        }
        _ => {
            let (oid, rest) = oid_of(rest)?;
            Ok((Answer::Exists(oid), rest))
        }
    }
}

fn reply_of(alloc: Global, kind: u8, bytes: &[u8]) -> Result<(Message, &[u8]), Stop>
    requires low { 1 ≤ kind }
    requires high { kind ≤ 3 }
    ensures { Gives (λ x. (x.0, x.1.now)) result (body_by kind bytes.now) }
{
    let (tid, rest) = tid_of(bytes)?;
    let (oid, rest) = oid_of(rest)?;
    match kind {
        1 => Ok((Message::Fetch { tid, oid }, rest)),
        2 => {
            let (version, rest) = u32_of(rest)?;
            let (object, rest) = object_of(alloc, rest)?;
            let message = Message::Object {
                tid,
                oid,
                version,
                object,
            };
            Ok((message, rest))
        }
        _ => {
            let (why, rest) = why_of(rest)?;
            Ok((Message::Deny { tid, oid, why }, rest))
        }
    }
}

fn body_of(alloc: Global, kind: u8, bytes: &[u8]) -> Result<(Message, &[u8]), Stop>
    requires low { 1 ≤ kind }
    ensures { Gives (λ x. (x.0, x.1.now)) result (body_by kind bytes.now) }
{
    if kind <= 3 {
        return reply_of(alloc, kind, bytes);
    }
    if kind == 8 {
        let (boot, rest) = u32_of(bytes)?;
        return Ok((Message::Boot { boot }, rest));
    }
    let (tid, rest) = tid_of(bytes)?;
    match kind {
        4 => {
            let (items, rest) = items_of(alloc, rest)?;
            Ok((Message::Prepare { tid, items }, rest))
        }
        5 => {
            let (answer, rest) = answer_of(rest)?;
            Ok((Message::Vote { tid, answer }, rest))
        }
        6 => Ok((Message::Commit { tid }, rest)),
        7 => Ok((Message::Abort { tid }, rest)),
        _ => Ok((Message::Inquire { tid }, rest)),
    }
}

#[tactic(auto, unfolding(crate::specs::Reading::message_at))]
fn message_of(alloc: Global, bytes: &[u8]) -> Result<(Message, &[u8]), Stop>
    ensures { Gives (λ x. (x.0, x.1.now)) result (message_at bytes.now) }
{
    let (_version, rest) = byte_of(bytes, SENT_VERSION, SENT_VERSION)?;
    let (kind, rest) = byte_of(rest, 1, 9)?;
    body_of(alloc, kind, rest)
}

#[tactic(auto, unfolding(crate::specs::Reading::all_of))]
pub fn whole_of(alloc: Global, bytes: &[u8]) -> Result<Message, Stop>
    ensures { Gives (λ m. m) result (all_of bytes.now) }
{
    let (message, rest) = message_of(alloc, bytes)?;
    if !rest.is_empty() {
        return Err(Stop::Bad { left: rest.len() });
    }
    Ok(message)
}
