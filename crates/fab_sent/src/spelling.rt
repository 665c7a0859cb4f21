//! Messages in bytes.
ghost use Rattle.std.specs.Prelude.{◌≡◌, ◌≤◌, ◌↔◌, IsTrue, IfOk, length};
ghost use Rattle.std.specs.List.{All};
ghost use Rattle.fab_base.specs.FieldSpelling.{KeepsItems};
ghost use Rattle.fab_base.specs.MessageSpelling.{KeepsCounts, spelled};

use fab_base::{Items, Message, NoMemory, Object, Oid, Seq};
use fab_wire::encode;
use std::alloc::{AllocError, Global};

/// Whether these writes are of objects with at most 16 fields each.
fn writes_keep_counts(writes: &[(Oid, u32, Object)]) -> bool
    ensures { IsTrue result ↔ All (λ w. length w.2.fields ≤ 16) writes.now }
{
    writes.iter().all(|write| write.2.fields.len() <= 16)
}

/// Whether these creates are of objects with at most 16 fields each.
fn creates_keep_counts(creates: &[(Oid, Object)]) -> bool
    ensures { IsTrue result ↔ All (λ c. length c.1.fields ≤ 16) creates.now }
{
    creates.iter().all(|create| create.1.fields.len() <= 16)
}

/// Whether these items have at most 1,024 reads, 256 writes and 256 creates, and their objects at
/// most 16 fields each.
fn items_keep_counts(items: &Items) -> bool
    ensures { IsTrue result ↔ KeepsItems items.now }
{
    items.reads.len() <= 1024
        && items.writes.len() <= 256
        && writes_keep_counts(items.writes.as_slice())
        && items.creates.len() <= 256
        && creates_keep_counts(items.creates.as_slice())
}

/// Whether the counts of a message are in range.
pub fn keeps_counts(message: &Message) -> bool
    ensures { IsTrue result ↔ KeepsCounts message.now }
{
    match message {
        Message::Object { object, .. } => object.fields.len() <= 16,
        Message::Prepare { items, .. } => items_keep_counts(items),
        _ => true,
    }
}

/// The spelling of a message. One whose counts aren't in range has none and is no message of a run,
/// but a record that no run gives may ask for it: it is answered as want of memory.
pub fn spell(alloc: Global, message: &Message) -> Result<Seq<u8>, NoMemory>
    ensures { IfOk result (λ bytes. bytes ≡ spelled message.now) }
{
    if keeps_counts(message) {
        encode(alloc, message)
    } else {
        Err(AllocError)
    }
}
