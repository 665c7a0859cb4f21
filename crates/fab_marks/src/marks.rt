//! One shape for each event.
ghost use Rattle.std.specs.Prelude.{◌≡◌, ◌++◌, ◌<◌, ◌+◌, ◌^◌, OnOk, IfOk, [], length, map};
ghost use Rattle.fab_wire.specs.Reading.{read_message};
ghost use Rattle.fab_marks.specs.Marks.{delivery_mark, mark_of, marks, post_mark, shown_sign, sign_mark};

use crate::labels::{label_of, title_of};
use crate::lives::is_up;
use crate::moves::Move;
use crate::nodes::is_sent_in;
use crate::origins::origin;
use crate::shape::{Shape, Sign, Spot};
use fab_base::{Message, NoMemory, Seq};
use fab_tree::resolved::Resolved;
use fab_wire::{DecodeError, decode};
use std::alloc::{AllocError, Global};

/// The message that bytes are read as, if they are one.
fn message_of(alloc: Global, bytes: &[u8]) -> Result<Option<Message>, NoMemory>
    ensures { IfOk result (λ message. message ≡ read_message bytes.now) }
{
    match decode(alloc, bytes) {
        Ok(message) => Ok(Some(message)),
        Err(DecodeError::Bad { .. }) => Ok(None),
        Err(DecodeError::Memory) => Err(AllocError),
    }
}

/// The messages of several events.
fn messages_of(alloc: Global, events: &[Move]) -> Result<Seq<Option<Message>>, NoMemory>
    ensures { IfOk result (λ heard. heard ≡ map (λ x. read_message x.bytes) events.now) }
{
    let mut heard = Seq::new(alloc);
    for event in events {
        heard.push(message_of(alloc, event.bytes.as_slice())?)?;
    }
    Ok(heard)
}

/// The sign of an event that is no message: where it was cut that of a crash.
fn shown_sign(event: &Move) -> Sign
    ensures { result ≡ shown_sign event.now }
{
    match event.cut {
        Some(_) => Sign::Crash,
        None => event.sign,
    }
}

/// A sign on its node's line.
fn sign_mark(
    alloc: Global,
    start: &Resolved,
    row: u32,
    event: &Move,
    message: &Option<Message>,
) -> Result<Shape, NoMemory>
    requires { message.now ≡ read_message event.now.bytes }
    ensures { IfOk result (λ shape. shape ≡ sign_mark start.now row event.now) }
{
    let at = Spot {
        column: u32::from(event.node),
        row,
    };
    Ok(Shape::Mark {
        at,
        sign: shown_sign(event),
        label: label_of(alloc, start, event, message)?,
        title: title_of(alloc, start, event)?,
    })
}

/// The arrow of a message that comes, behind these events of the window.
fn delivery_mark(
    alloc: Global,
    start: &Resolved,
    set: &[Seq<u8>],
    front: &[Move],
    heard: &[Option<Message>],
    event: &Move,
    message: &Option<Message>,
) -> Result<Shape, NoMemory>
    requires few { length front.now < 2 ^ 31 }
    requires heard { heard.now ≡ map (λ x. read_message x.bytes) front.now }
    requires message { message.now ≡ read_message event.now.bytes }
    ensures { IfOk result (λ shape. shape ≡ delivery_mark start.now set.now front.now (length front.now + 1) event.now) }
{
    let from = Spot {
        column: u32::from(event.other),
        row: origin(front, heard, event, message),
    };
    let to = Spot {
        column: u32::from(event.node),
        row: front.len() as u32 + 1,
    };
    Ok(Shape::Arrow {
        from,
        to,
        lost: event.cut.is_some(),
        stands_out: is_sent_in(start, set, event.other, event.node),
        label: label_of(alloc, start, event, message)?,
        title: title_of(alloc, start, event)?,
    })
}

/// The sign of a post, or where its receiver is down the arrow of what is lost.
fn post_mark(
    alloc: Global,
    start: &Resolved,
    set: &[Seq<u8>],
    up: bool,
    row: u32,
    event: &Move,
    message: &Option<Message>,
) -> Result<Shape, NoMemory>
    requires { message.now ≡ read_message event.now.bytes }
    ensures { IfOk result (λ shape. shape ≡ post_mark start.now set.now up row event.now) }
{
    if up {
        return sign_mark(alloc, start, row, event, message);
    }
    let from = Spot {
        column: u32::from(event.node),
        row,
    };
    let to = Spot {
        column: u32::from(event.other),
        row,
    };
    Ok(Shape::Arrow {
        from,
        to,
        lost: true,
        stands_out: is_sent_in(start, set, event.node, event.other),
        label: label_of(alloc, start, event, message)?,
        title: title_of(alloc, start, event)?,
    })
}

/// The mark of an event behind those before the window and those of the window in front of it.
fn mark_of(
    alloc: Global,
    start: &Resolved,
    set: &[Seq<u8>],
    past: &[Move],
    front: &[Move],
    heard: &[Option<Message>],
    event: &Move,
    message: &Option<Message>,
) -> Result<Shape, NoMemory>
    requires few { length front.now < 2 ^ 31 }
    requires heard { heard.now ≡ map (λ x. read_message x.bytes) front.now }
    requires message { message.now ≡ read_message event.now.bytes }
    ensures { IfOk result (λ shape. shape ≡ mark_of start.now set.now past.now front.now (length front.now + 1) event.now) }
{
    let row = front.len() as u32 + 1;
    match event.sign {
        Sign::Deliver => delivery_mark(alloc, start, set, front, heard, event, message),
        Sign::Post => {
            let up = is_up(event.other, is_up(event.other, true, past), front);
            post_mark(alloc, start, set, up, row, event, message)
        }
        Sign::Begin | Sign::Resume | Sign::Idle | Sign::Crash | Sign::Recover => {
            sign_mark(alloc, start, row, event, message)
        }
    }
}

/// The marks of the events in a window, behind those before it. The set is of nodes by their names: what
/// is sent to them stands out.
pub fn put_marks(
    alloc: Global,
    out: &mut Seq<Shape>,
    start: &Resolved,
    set: &[Seq<u8>],
    past: &[Move],
    drawn: &[Move],
) -> Result<(), NoMemory>
    requires { length drawn.now < 2 ^ 31 }
    ensures { OnOk result (out.new ≡ out.old ++ marks start.now set.now past.now [] 1 drawn.now) }
{
    let messages = messages_of(alloc, drawn)?;
    let heard = messages.as_slice();
    for (index, event) in drawn.iter().enumerate() {
        let front = &drawn[..index];
        let before = &heard[..index];
        let mark = mark_of(alloc, start, set, past, front, before, event, &heard[index])?;
        out.push(mark)?;
    }
    Ok(())
}
