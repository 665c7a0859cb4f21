//! What is written at events.
ghost use Rattle.std.specs.Prelude.{◌≡◌, ◌++◌, ◌∷◌, OnOk, IfOk};
ghost use Rattle.fab_language.specs.Words.{hex};
ghost use Rattle.fab_wire.specs.Reading.{read_message};
ghost use Rattle.fab_marks.specs.Labels.{cut_text, cut_words, label_of, sign_text, sign_words, title_of};

use crate::moves::Move;
use crate::shape::Sign;
use crate::texts::{put_number, put_read, put_short};
use fab_base::{Message, NoMemory, Seq};
use fab_lines::{node_name, put_hex, put_word};
use fab_tree::resolved::Resolved;
use std::alloc::Global;

const LABEL_LENGTH: usize = 30;

/// What an event is, with the message that its bytes are.
fn put_sign(
    alloc: Global,
    out: &mut Seq<u8>,
    start: &Resolved,
    event: &Move,
    message: &Option<Message>,
) -> Result<(), NoMemory>
    requires { message.now ≡ read_message event.now.bytes }
    ensures { OnOk result (out.new ≡ out.old ++ sign_text start.now event.now event.now.sign) }
{
    match event.sign {
        Sign::Begin => out.extend(b"begin"),
        Sign::Resume => out.extend(b"resume"),
        Sign::Deliver => put_read(alloc, out, start, event.bytes.as_slice(), message),
        Sign::Post => {
            out.extend(b"post ")?;
            put_read(alloc, out, start, event.bytes.as_slice(), message)
        }
        Sign::Idle => {
            out.extend(b"idle ")?;
            put_short(out, 12, node_name(start, event.other).as_bytes())
        }
        Sign::Crash => out.extend(b"crash"),
        Sign::Recover => out.extend(b"recover"),
    }
}

/// Of an event that a crash cut, how many bytes of its record stay.
fn put_cut(alloc: Global, out: &mut Seq<u8>, cut: Option<u32>) -> Result<(), NoMemory>
    ensures { OnOk result (out.new ≡ out.old ++ cut_text cut) }
{
    match cut {
        Some(keep) => {
            out.extend(b" cut at ")?;
            put_number(alloc, out, u64::from(keep))?;
            out.extend(b":")
        }
        None => Ok(()),
    }
}

/// An event's label.
pub(crate) fn label_of(
    alloc: Global,
    start: &Resolved,
    event: &Move,
    message: &Option<Message>,
) -> Result<Seq<u8>, NoMemory>
    requires { message.now ≡ read_message event.now.bytes }
    ensures { IfOk result (λ label. label ≡ label_of start.now event.now) }
{
    let mut whole = Seq::new(alloc);
    put_number(alloc, &mut whole, u64::from(event.number))?;
    put_cut(alloc, &mut whole, event.cut)?;
    whole.extend(b" ")?;
    put_sign(alloc, &mut whole, start, event, message)?;
    let mut label = Seq::new(alloc);
    put_short(&mut label, LABEL_LENGTH, whole.as_slice())?;
    Ok(label)
}

/// The words of the report that say where an event was cut.
fn put_cut_words(alloc: Global, out: &mut Seq<u8>, cut: Option<u32>) -> Result<(), NoMemory>
    ensures { OnOk result (out.new ≡ out.old ++ cut_words cut) }
{
    match cut {
        Some(keep) => {
            out.extend(b" crashin ")?;
            put_number(alloc, out, u64::from(keep))
        }
        None => Ok(()),
    }
}

/// The bytes of an event, behind a space.
fn put_bytes(out: &mut Seq<u8>, bytes: &[u8]) -> Result<(), NoMemory>
    ensures { OnOk result (out.new ≡ out.old ++ 32 ∷ hex bytes.now) }
{
    out.push(b' ')?;
    put_hex(out, bytes)
}

/// The words of the report that say what an event is.
fn put_sign_words(out: &mut Seq<u8>, start: &Resolved, event: &Move) -> Result<(), NoMemory>
    ensures { OnOk result (out.new ≡ out.old ++ sign_words start.now event.now event.now.sign) }
{
    let node = node_name(start, event.node);
    let other = node_name(start, event.other);
    let bytes = event.bytes.as_slice();
    match event.sign {
        Sign::Begin => put_at(out, "begin", node),
        Sign::Resume => put_at(out, "resume", node),
        Sign::Deliver => {
            put_between(out, "deliver", other, node)?;
            put_bytes(out, bytes)
        }
        Sign::Post => {
            put_between(out, "post", node, other)?;
            put_bytes(out, bytes)
        }
        Sign::Idle => put_between(out, "idle", node, other),
        Sign::Crash => put_at(out, "crash", node),
        Sign::Recover => put_at(out, "recover", node),
    }
}

/// What happened at a node.
fn put_at(out: &mut Seq<u8>, word: &str, node: &str) -> Result<(), NoMemory>
    ensures { OnOk result (out.new ≡ out.old ++ (32 ∷ word.now ++ 32 ∷ node.now)) }
{
    put_word(out, word)?;
    put_word(out, node)
}

/// What happened between two nodes.
fn put_between(out: &mut Seq<u8>, word: &str, first: &str, second: &str) -> Result<(), NoMemory>
    ensures { OnOk result (out.new ≡ out.old ++ (32 ∷ word.now ++ 32 ∷ first.now ++ 32 ∷ second.now)) }
{
    put_at(out, word, first)?;
    put_word(out, second)
}

/// An event's line in the report.
pub(crate) fn title_of(alloc: Global, start: &Resolved, event: &Move) -> Result<Seq<u8>, NoMemory>
    ensures { IfOk result (λ title. title ≡ title_of start.now event.now) }
{
    let mut title = Seq::new(alloc);
    title.extend(b"event ")?;
    put_number(alloc, &mut title, u64::from(event.number))?;
    put_cut_words(alloc, &mut title, event.cut)?;
    put_sign_words(&mut title, start, event)?;
    Ok(title)
}
