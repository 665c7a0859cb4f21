//! Where a message was sent: the latest event before in which its sender can have sent it.
ghost use Rattle.std.specs.Prelude.{◌≡◌, ◌<◌, ◌+◌, ◌^◌, length, map};
ghost use Rattle.fab_wire.specs.Reading.{read_message};
ghost use Rattle.fab_marks.specs.Origins.{asks_at, decides, delivers_at, fetches, inquires, is_post, is_silence, is_tid, is_yes, may_be_origin, may_send, origin, prepares, recovers_at, votes};

use crate::moves::Move;
use crate::shape::Sign;
use crate::texts::is_one_name;
use fab_base::{Answer, Message, Oid, Tid};

/// Whether two attempts are one.
fn is_tid(one: Tid, other: Tid) -> bool
    ensures { result ≡ is_tid one other }
{
    one == other
}

/// Whether a message asks for this object in this attempt.
fn fetches(tid: Tid, oid: Oid, message: &Option<Message>) -> bool
    ensures { result ≡ fetches tid oid message.now }
{
    match message {
        Some(
            Message::Fetch {
                tid: other,
                oid: object,
            },
        ) => is_tid(tid, *other) && is_one_name(oid, *object),
        _ => false,
    }
}

/// Whether it asks to prepare this attempt.
fn prepares(tid: Tid, message: &Option<Message>) -> bool
    ensures { result ≡ prepares tid message.now }
{
    match message {
        Some(Message::Prepare { tid: other, .. }) => is_tid(tid, *other),
        _ => false,
    }
}

/// Whether a vote is a yes.
fn is_yes(answer: Answer) -> bool
    ensures { result ≡ is_yes answer }
{
    matches!(answer, Answer::Yes)
}

/// Whether it is a yes, or a no, on this attempt.
fn votes(agreed: bool, tid: Tid, message: &Option<Message>) -> bool
    ensures { result ≡ votes agreed tid message.now }
{
    match message {
        Some(Message::Vote { tid: other, answer }) => {
            is_tid(tid, *other)
                && if agreed {
                    is_yes(*answer)
                } else {
                    !is_yes(*answer)
                }
        }
        _ => false,
    }
}

/// Whether it asks how this attempt ended.
fn inquires(tid: Tid, message: &Option<Message>) -> bool
    ensures { result ≡ inquires tid message.now }
{
    match message {
        Some(Message::Inquire { tid: other }) => is_tid(tid, *other),
        _ => false,
    }
}

/// Whether a worker goes on.
fn asks_at(sign: Sign) -> bool
    ensures { result ≡ asks_at sign }
{
    matches!(sign, Sign::Resume)
}

/// Whether a node comes back.
fn recovers_at(sign: Sign) -> bool
    ensures { result ≡ recovers_at sign }
{
    matches!(sign, Sign::Recover)
}

/// Whether a message comes.
fn delivers_at(sign: Sign) -> bool
    ensures { result ≡ delivers_at sign }
{
    matches!(sign, Sign::Deliver)
}

/// Whether a worker gives up waiting.
fn is_silence(sign: Sign) -> bool
    ensures { result ≡ is_silence sign }
{
    matches!(sign, Sign::Idle)
}

/// Whether bytes are posted.
fn is_post(sign: Sign) -> bool
    ensures { result ≡ is_post sign }
{
    matches!(sign, Sign::Post)
}

/// Whether a worker may tell a node in an event, of which the bytes are read as this, that an attempt was
/// decided so.
fn decides(to: u16, agreed: bool, tid: Tid, event: &Move, heard: &Option<Message>) -> bool
    requires { heard.now ≡ read_message event.now.bytes }
    ensures { result ≡ decides to agreed tid event.now }
{
    recovers_at(event.sign)
        || (is_silence(event.sign) && !agreed)
        || (delivers_at(event.sign)
            && (votes(agreed, tid, heard) || (event.other == to && inquires(tid, heard))))
}

/// Whether its node may send another node this message in it.
fn may_send(to: u16, event: &Move, heard: &Option<Message>, message: &Option<Message>) -> bool
    requires { heard.now ≡ read_message event.now.bytes }
    ensures { result ≡ may_send to event.now message.now }
{
    let answers = delivers_at(event.sign) && event.other == to;
    match message {
        Some(Message::Fetch { .. }) => asks_at(event.sign),
        Some(Message::Prepare { .. }) => asks_at(event.sign),
        Some(Message::Object { tid, oid, .. }) => answers && fetches(*tid, *oid, heard),
        Some(Message::Deny { tid, oid, .. }) => answers && fetches(*tid, *oid, heard),
        Some(Message::Vote { tid, .. }) => answers && prepares(*tid, heard),
        Some(Message::Commit { tid }) => decides(to, true, *tid, event, heard),
        Some(Message::Abort { tid }) => decides(to, false, *tid, event, heard),
        Some(Message::Boot { .. }) => recovers_at(event.sign),
        Some(Message::Inquire { .. }) => recovers_at(event.sign),
        None => false,
    }
}

/// Whether the bytes of a delivery, which are read as this message, may have been sent in an event.
fn may_be_origin(
    delivery: &Move,
    message: &Option<Message>,
    event: &Move,
    heard: &Option<Message>,
) -> bool
    requires { heard.now ≡ read_message event.now.bytes }
    ensures { result ≡ may_be_origin delivery.now message.now event.now }
{
    if event.node != delivery.other {
        return false;
    }
    let posted = is_post(event.sign)
        && event.other == delivery.node
        && event.bytes.as_slice() == delivery.bytes.as_slice();
    posted || (event.cut.is_none() && may_send(delivery.node, event, heard, message))
}

/// The row of the latest event in front of a delivery in which it may have been sent, where they stand in
/// rows from 1 on; the row behind them where there is none.
pub(crate) fn origin(
    front: &[Move],
    heard: &[Option<Message>],
    delivery: &Move,
    message: &Option<Message>,
) -> u32
    requires few { length front.now < 2 ^ 31 }
    requires heard { heard.now ≡ map (λ x. read_message x.bytes) front.now }
    requires message { message.now ≡ read_message delivery.now.bytes }
    ensures { result ≡ origin front.now (length front.now + 1) delivery.now }
{
    let mut found = front.len() as u32 + 1;
    let mut row = 1;
    let mut events = front;
    let mut messages = heard;
    'events: while let Some((event, later)) = events.split_first() {
        let Some((read, others)) = messages.split_first() else {
            break;
        };
        if may_be_origin(delivery, message, event, read) {
            found = row;
        }
        row += 1;
        events = later;
        messages = others;
    }
    found
}
