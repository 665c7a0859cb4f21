//! Words of a line, each behind a space.
ghost use Rattle.std.specs.Prelude.{◌≡◌, ◌++◌, ◌∷◌, OnOk};
ghost use Rattle.std.specs.Fmt.{decimal};
ghost use Rattle.fab_language.specs.Words.{hex, node_text};
ghost use Rattle.fab_trace.specs.Report.{tid_text};

use fab_base::{NoMemory, Seq, Tid};
use fab_lines::{node_name, put_hex, put_word};
use fab_tree::resolved::Resolved;
use std::alloc::Global;

/// A number, behind a space.
pub fn put_number(alloc: Global, out: &mut Seq<u8>, number: u64) -> Result<(), NoMemory>
    ensures { OnOk result (out.new ≡ out.old ++ 32 ∷ decimal number) }
{
    let text = format!(in alloc; "{number}")?;
    put_word(out, text.as_str())
}

/// An attempt, by its worker's boot and its number.
pub(crate) fn put_tid(alloc: Global, out: &mut Seq<u8>, tid: Tid) -> Result<(), NoMemory>
    ensures { OnOk result (out.new ≡ out.old ++ 32 ∷ tid_text tid) }
{
    let boot = tid.boot;
    let number = tid.number;
    let text = format!(in alloc; "{boot}.{number}")?;
    put_word(out, text.as_str())
}

/// The name of a worker or store, behind a space.
pub fn put_node(out: &mut Seq<u8>, start: &Resolved, number: u16) -> Result<(), NoMemory>
    ensures { OnOk result (out.new ≡ out.old ++ 32 ∷ node_text start.now number) }
{
    put_word(out, node_name(start, number))
}

/// The digits of bytes, behind a space.
pub fn put_bytes(out: &mut Seq<u8>, bytes: &[u8]) -> Result<(), NoMemory>
    ensures { OnOk result (out.new ≡ out.old ++ 32 ∷ hex bytes.now) }
{
    out.push(b' ')?;
    put_hex(out, bytes)
}
