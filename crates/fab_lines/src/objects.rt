//! Values and objects.
ghost use Rattle.std.specs.Prelude.{◌≡◌, ◌++◌, ◌∷◌, [], OnOk, IfOk, map};
ghost use Rattle.std.specs.Fmt.{signed_decimal};
ghost use Rattle.fab_language.specs.Evaluation.{object_line, objects_text};
ghost use Rattle.fab_language.specs.Words.{value_text, result_text, stop_text, spaced};
ghost use Rattle.fab_lines.specs.Numbered.{AreNumbered};

use crate::names::{class_name, node_name, put_name};
use fab_base::{NoMemory, Object, Oid, Seq, Stop, Value};
use fab_tree::resolved::Resolved;
use std::alloc::Global;

/// A number, `null`, or the name of an object.
pub fn put_value(
    alloc: Global,
    out: &mut Seq<u8>,
    start: &Resolved,
    value: Value,
) -> Result<(), NoMemory>
    requires { AreNumbered start.now.roots }
    ensures { OnOk result (out.new ≡ out.old ++ value_text start.now value) }
{
    match value {
        Value::Int(number) => {
            let text = format!(in alloc; "{number}")?;
            out.extend(text.as_str().as_bytes())
        }
        Value::Null => out.extend(b"null"),
        Value::Ref(oid) => put_name(out, start, oid),
    }
}

/// A value, or `none`.
pub fn put_result(
    alloc: Global,
    out: &mut Seq<u8>,
    start: &Resolved,
    value: Option<Value>,
) -> Result<(), NoMemory>
    requires { AreNumbered start.now.roots }
    ensures { OnOk result (out.new ≡ out.old ++ result_text start.now value) }
{
    match value {
        Some(value) => put_value(alloc, out, start, value),
        None => out.extend(b"none"),
    }
}

/// The word of a limit that was met.
pub fn stop_word(stop: Stop) -> &'static str
    ensures { result.now ≡ stop_text stop }
{
    match stop {
        Stop::Fuel => "fuel",
        Stop::Depth => "depth",
        Stop::Reads => "reads",
        Stop::Writes => "writes",
    }
}

/// A word behind a space.
pub fn put_word(out: &mut Seq<u8>, word: &str) -> Result<(), NoMemory>
    ensures { OnOk result (out.new ≡ out.old ++ 32 ∷ word.now) }
{
    out.push(b' ')?;
    out.extend(word.as_bytes())
}

/// Each value behind a space.
pub fn put_values(
    alloc: Global,
    out: &mut Seq<u8>,
    start: &Resolved,
    values: &[Value],
) -> Result<(), NoMemory>
    requires { AreNumbered start.now.roots }
    ensures { OnOk result (out.new ≡ out.old ++ spaced (map (value_text start.now) values.now)) }
{
    let mut rest = values;
    'values: while let Some((value, after)) = rest.split_first() {
        out.push(b' ')?;
        put_value(alloc, out, start, *value)?;
        rest = after;
    }
    Ok(())
}

/// The line of an object.
fn put_object(
    alloc: Global,
    out: &mut Seq<u8>,
    start: &Resolved,
    row: &(Oid, Object),
) -> Result<(), NoMemory>
    requires { AreNumbered start.now.roots }
    ensures { OnOk result (out.new ≡ out.old ++ object_line start.now row.now) }
{
    out.extend(b"object")?;
    put_word(out, node_name(start, row.0.store))?;
    out.push(b' ')?;
    put_name(out, start, row.0)?;
    put_word(out, class_name(start, row.0.class))?;
    put_values(alloc, out, start, row.1.fields.as_slice())?;
    out.push(b'\n')
}

/// A line for each object: `object`, its store, its name, its class and its values.
pub fn put_objects(
    alloc: Global,
    out: &mut Seq<u8>,
    start: &Resolved,
    rows: &[(Oid, Object)],
) -> Result<(), NoMemory>
    requires { AreNumbered start.now.roots }
    ensures { OnOk result (out.new ≡ out.old ++ objects_text start.now rows.now) }
{
    let mut rest = rows;
    'rows: while let Some((row, after)) = rest.split_first() {
        put_object(alloc, out, start, row)?;
        rest = after;
    }
    Ok(())
}
