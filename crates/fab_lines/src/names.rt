//! Names of objects, workers, stores and classes.
ghost use Rattle.std.specs.Prelude.{◌≡◌, ◌++◌, ◌∷◌, [], OnOk, Option, Some, None, find, slice_get, false, ◌<◌};
ghost use Rattle.std.specs.Fmt.{digit_glyph};
ghost use Rattle.std.specs.Option.{option_copied};
ghost use Rattle.std.specs.Prelude.{option_map};
ghost use Rattle.fab_base.specs.FieldSpelling.{two_bytes, four_bytes, oid_bytes};
ghost use Rattle.fab_base.specs.FlatMap.{is_same};
ghost use Rattle.fab_language.specs.Words.{hex, has_number, name_text, node_text, class_text};
ghost use Rattle.fab_lines.specs.Numbered.{AreNumbered};

use fab_base::{NoMemory, Oid, Seq};
use fab_tree::resolved::{Principal, Resolved, Root};

/// A digit to the base 16.
fn digit(number: u8) -> u8
    requires { number < 16 }
    ensures { result ≡ digit_glyph false number }
{
    if number < 10 {
        b'0' + number
    } else {
        b'a' + (number - 10)
    }
}

/// The two digits of each byte.
pub fn put_hex(out: &mut Seq<u8>, bytes: &[u8]) -> Result<(), NoMemory>
    ensures { OnOk result (out.new ≡ out.old ++ hex bytes.now) }
{
    let mut rest = bytes;
    'digits: while let Some((byte, after)) = rest.split_first() {
        out.push(digit(*byte / 16))?;
        out.push(digit(*byte % 16))?;
        rest = after;
    }
    Ok(())
}

/// The four digits of a number of 16 bits.
fn put_two(out: &mut Seq<u8>, number: u16) -> Result<(), NoMemory>
    ensures { OnOk result (out.new ≡ out.old ++ hex (two_bytes number)) }
{
    put_hex(out, &number.to_be_bytes())
}

/// The eight digits of a number of 32 bits.
fn put_four(out: &mut Seq<u8>, number: u32) -> Result<(), NoMemory>
    ensures { OnOk result (out.new ≡ out.old ++ hex (four_bytes number)) }
{
    put_hex(out, &number.to_be_bytes())
}

/// The 36 digits of an object's name.
fn put_oid(out: &mut Seq<u8>, oid: Oid) -> Result<(), NoMemory>
    ensures { OnOk result (out.new ≡ out.old ++ hex (oid_bytes oid)) }
{
    put_two(out, oid.store)?;
    put_two(out, oid.class)?;
    put_two(out, oid.worker)?;
    put_four(out, oid.boot)?;
    put_four(out, oid.number)?;
    put_two(out, oid.site)?;
    put_two(out, oid.index)?;
    Ok(())
}

/// Whether two names are one.
fn is_one_name(one: Oid, other: Oid) -> bool
    ensures { result ≡ is_same one other }
{
    one == other
}

/// The root of this number.
fn root_at(roots: &[Root], number: u32) -> Option<&Root>
    ensures { option_copied result ≡ slice_get roots.now number }
{
    roots.get(number as usize)
}

/// The root of this name.
fn root_of(roots: &[Root], oid: Oid) -> Option<&Root>
    requires { AreNumbered roots.now }
    ensures { option_copied result ≡ find (λ x. is_same x.oid oid) roots.now }
{
    match root_at(roots, oid.number) {
        None => None,
        Some(root) => {
            if is_one_name(root.oid, oid) {
                Some(root)
            } else {
                None
            }
        }
    }
}

/// An object's name: its root's, else `#` and the digits of its own.
pub fn put_name(out: &mut Seq<u8>, start: &Resolved, oid: Oid) -> Result<(), NoMemory>
    requires { AreNumbered start.now.roots }
    ensures { OnOk result (out.new ≡ out.old ++ name_text start.now oid) }
{
    match root_of(start.roots.as_slice(), oid) {
        Some(root) => out.extend(root.name.text.as_str().as_bytes()),
        None => {
            out.push(b'#')?;
            put_oid(out, oid)?;
            Ok(())
        }
    }
}

/// Whether a principal is the worker or store of this number.
fn is_node(principal: &Principal, number: usize) -> bool
    ensures { result ≡ has_number number principal.now.node }
{
    match principal.node {
        None => false,
        Some(node) => number == usize::from(node),
    }
}

/// The worker or store of this number.
fn node_of(nodes: &[Principal], number: usize) -> Option<&Principal>
    ensures { option_copied result ≡ find (λ x. has_number number x.node) nodes.now }
{
    nodes.iter().find(|x| is_node(x, number))
}

/// The name of the worker or store of this number, or nothing where there is none.
pub fn node_name(start: &Resolved, number: u16) -> &str
    ensures { result.now ≡ node_text start.now number }
{
    name_at(start, usize::from(number))
}

/// The name of the worker or store that stands here among them, or nothing where there is none.
pub fn name_at(start: &Resolved, number: usize) -> &str
    ensures { result.now ≡ node_text start.now number }
{
    match node_of(start.nodes.as_slice(), number) {
        Some(principal) => principal.name.text.as_str(),
        None => "",
    }
}

/// The name of the class of this number.
pub fn class_name(start: &Resolved, number: u16) -> &str
    ensures { result.now ≡ class_text start.now number }
{
    match start.classes.as_slice().get(usize::from(number)) {
        Some(class) => class.name.text.as_str(),
        None => "",
    }
}
