//! The least pieces of a text: names, numbers, bytes and blanks.
ghost use Rattle.std.specs.Prelude.{◌≡◌, ◌+◌, ◌<◌, ◌∷◌, ◌++◌, [], IfOk, OnOk, false};
ghost use Rattle.std.specs.Fmt.{digit_glyph};
ghost use Rattle.fab_tree.specs.Print as print;
ghost use Rattle.fab_print.specs.Adding.{Adds};

use fab_base::{NoMemory, Seq};
use fab_tree::{Name, Number};
use std::alloc::{AllocError, Global};

/// What has a canonical text of its own, wherever it stands.
pub(crate) trait Print {
    ghost use Rattle.std.specs.Prelude.{OnOk};
    ghost use Rattle.fab_tree.specs.Print.{Inks};
    ghost use Rattle.fab_print.specs.Adding.{Adds};

    ghost inks: { Self → Inks };

    /// Adds it to a text.
    fn print(&self, alloc: Global, out: &mut Seq<u8>) -> Result<(), NoMemory>
        ensures { OnOk result (Adds (inks self.now) out.old out.new) };
}

impl Print for Name {
    ghost use Rattle.fab_tree.specs.Print.{name};

    ghost inks = { name };

    fn print(&self, _alloc: Global, out: &mut Seq<u8>) -> Result<(), NoMemory> {
        put_name(out, self)
    }
}

/// A name.
pub(crate) fn put_name(out: &mut Seq<u8>, name: &Name) -> Result<(), NoMemory>
    ensures { OnOk result (Adds (print.name name.now) out.old out.new) }
{
    out.extend(name.text.as_str().as_bytes())?;
    Ok(())
}

/// A number.
pub(crate) fn put_number(alloc: Global, out: &mut Seq<u8>, number: u32) -> Result<(), NoMemory>
    ensures { OnOk result (Adds (print.number number) out.old out.new) }
{
    let text = format!(in alloc; "{number}")?;
    out.extend(text.as_str().as_bytes())?;
    Ok(())
}

/// A number of 32 bits with its sign.
fn put_signed(alloc: Global, out: &mut Seq<u8>, number: i32) -> Result<(), NoMemory>
    ensures { OnOk result (Adds (print.integer (Number.Int number)) out.old out.new) }
{
    let text = format!(in alloc; "{number}")?;
    out.extend(text.as_str().as_bytes())?;
    Ok(())
}

/// A number with its sign.
pub(crate) fn put_integer(alloc: Global, out: &mut Seq<u8>, number: Number) -> Result<(), NoMemory>
    ensures { OnOk result (Adds (print.integer number) out.old out.new) }
{
    match number {
        Number::Int(n) => put_signed(alloc, out, n),
    }
}

/// A digit to the base 16.
fn digit(number: u8) -> u8
    requires { number < 16 }
    ensures { result ≡ digit_glyph false number }
{
    if number < 10 {
        b'0' + number
    } else {
        b'a' + (number - 10)
    }
}

/// The two digits of each byte.
fn put_digits(out: &mut Seq<u8>, bytes: &[u8]) -> Result<(), NoMemory>
    ensures { OnOk result (out.new ≡ out.old ++ print.digits_of bytes.now) }
{
    let mut rest = bytes;
    'digits: while let Some((byte, after)) = rest.split_first() {
        out.push(digit(*byte / 16))?;
        out.push(digit(*byte % 16))?;
        rest = after;
    }
    Ok(())
}

/// Bytes in quotation marks.
pub(crate) fn put_bytes(out: &mut Seq<u8>, bytes: &[u8]) -> Result<(), NoMemory>
    ensures { OnOk result (Adds (print.bytes bytes.now) out.old out.new) }
{
    out.push(b'"')?;
    put_digits(out, bytes)?;
    out.push(b'"')?;
    Ok(())
}

/// Two spaces for each level.
pub(crate) fn put_indent(out: &mut Seq<u8>, level: usize) -> Result<(), NoMemory>
    ensures { OnOk result (Adds (print.indent level) out.old out.new) }
{
    'levels: for _ in 0..level {
        out.extend(b"  ")?;
    }
    Ok(())
}

/// The level within a block. No memory holds a line of the level above the last one.
pub(crate) fn within(level: usize) -> Result<usize, NoMemory>
    ensures { IfOk result (λ inner. inner ≡ level + 1) }
{
    match level.checked_add(1) {
        Some(inner) => Ok(inner),
        None => Err(AllocError),
    }
}
