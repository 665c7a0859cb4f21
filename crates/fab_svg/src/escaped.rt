//! Text that stands in markup.
ghost use Rattle.std.specs.Prelude.{◌≡◌, ◌++◌, OnOk};
ghost use Rattle.fab_svg.specs.Escaped.{escaped, escaped_byte};

use fab_base::{NoMemory, Seq};

/// What stands for a byte: what could be taken for markup by its name, and `?` for what is no printable ASCII.
fn put_byte(out: &mut Seq<u8>, byte: u8) -> Result<(), NoMemory>
    ensures { OnOk result (out.new ≡ out.old ++ escaped_byte byte) }
{
    match byte {
        b'&' => out.extend(b"&amp;"),
        b'<' => out.extend(b"&lt;"),
        b'>' => out.extend(b"&gt;"),
        b'"' => out.extend(b"&quot;"),
        b'\'' => out.extend(b"&#39;"),
        b' '..=b'~' => out.push(byte),
        _ => out.push(b'?'),
    }
}

/// What stands for a text.
pub(crate) fn put_escaped(out: &mut Seq<u8>, text: &[u8]) -> Result<(), NoMemory>
    ensures { OnOk result (out.new ≡ out.old ++ escaped text.now) }
{
    let mut rest = text;
    'bytes: while let Some((byte, after)) = rest.split_first() {
        put_byte(out, *byte)?;
        rest = after;
    }
    Ok(())
}
