//! What trusted replay gives.
ghost use Rattle.std.specs.Prelude.{◌≡◌, ◌++◌, ◌∷◌, [], IfOk, codes};
ghost use Rattle.fab_lines.specs.Numbered.{AreNumbered};
ghost use Rattle.fab_listing.specs.Trusted.{trusted_text};

use fab_base::{NoMemory, Object, Oid, Seq};
use fab_lines::put_objects;
use fab_trace::put_number;
use fab_tree::resolved::Resolved;
use std::alloc::Global;

/// What trusted replay gives, in bytes: `robust`, a line for each object in their order, with its store, its
/// name, its class and its values, and a last line with their number.
pub fn print_trusted(
    alloc: Global,
    program: &Resolved,
    rows: &[(Oid, Object)],
) -> Result<Seq<u8>, NoMemory>
    requires numbered { AreNumbered program.now.roots }
    ensures { IfOk result (λ bytes. bytes ≡ trusted_text program.now rows.now) }
{
    let mut text = Seq::from_slice(alloc, b"robust\n")?;
    put_objects(alloc, &mut text, program, rows)?;
    text.extend(b"end")?;
    put_number(alloc, &mut text, rows.len() as u64)?;
    text.push(b'\n')?;
    Ok(text)
}
