//! Lines of what stores hold.
ghost use Rattle.std.specs.Prelude.{◌≡◌, ◌++◌, ◌∷◌, [], OnOk, flat_map};
ghost use Rattle.fab_language.specs.Words.{spaced, node_text, name_text, class_text};
ghost use Rattle.fab_lines.specs.Numbered.{AreNumbered};
ghost use Rattle.fab_trace.specs.Report.{held_line, held_text};

use crate::words::put_number;
use fab_base::{NoMemory, Object, Oid, Seq};
use fab_lines::{class_name, name_at, put_name, put_values, put_word};
use fab_tree::resolved::Resolved;
use std::alloc::Global;

/// What the stores hold: one list for each node, ascending by name, empty for a node that is no honest
/// store. A row is an object's name, its version and the object.
#[derive(Debug, Drop)]
pub struct Held {
    pub stores: Seq<Seq<(Oid, u32, Object)>>,
}

/// The words of an object's store, its name and its class.
fn put_name_at(out: &mut Seq<u8>, start: &Resolved, store: usize, oid: Oid) -> Result<(), NoMemory>
    requires { AreNumbered start.now.roots }
    ensures { OnOk result (out.new ≡ out.old ++ spaced (node_text start.now store ∷ name_text start.now oid ∷ class_text start.now oid.class ∷ [])) }
{
    put_word(out, name_at(start, store))?;
    out.push(b' ')?;
    put_name(out, start, oid)?;
    put_word(out, class_name(start, oid.class))
}

/// The line of an object that a store holds.
fn put_row(
    alloc: Global,
    out: &mut Seq<u8>,
    start: &Resolved,
    store: usize,
    row: &(Oid, u32, Object),
) -> Result<(), NoMemory>
    requires { AreNumbered start.now.roots }
    ensures { OnOk result (out.new ≡ out.old ++ held_line start.now store row.now) }
{
    out.extend(b"object")?;
    put_name_at(out, start, store, row.0)?;
    put_number(alloc, out, u64::from(row.1))?;
    put_values(alloc, out, start, row.2.fields.as_slice())?;
    out.push(b'\n')
}

/// A line for each object that a store holds.
fn put_rows(
    alloc: Global,
    out: &mut Seq<u8>,
    start: &Resolved,
    store: usize,
    rows: &[(Oid, u32, Object)],
) -> Result<(), NoMemory>
    requires { AreNumbered start.now.roots }
    ensures { OnOk result (out.new ≡ out.old ++ flat_map (held_line start.now store) rows.now) }
{
    let mut rest = rows;
    'rows: while let Some((row, after)) = rest.split_first() {
        put_row(alloc, out, start, store, row)?;
        rest = after;
    }
    Ok(())
}

/// A line for each object, store by store.
pub(crate) fn put_held(
    alloc: Global,
    out: &mut Seq<u8>,
    start: &Resolved,
    stores: &[Seq<(Oid, u32, Object)>],
) -> Result<(), NoMemory>
    requires { AreNumbered start.now.roots }
    ensures { OnOk result (out.new ≡ out.old ++ held_text start.now 0 stores.now) }
{
    for (store, rows) in stores.iter().enumerate() {
        put_rows(alloc, out, start, store, rows.as_slice())?;
    }
    Ok(())
}
