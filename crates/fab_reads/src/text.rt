//! The lines of the reads.
ghost use Rattle.std.specs.Prelude.{◌≡◌, ◌∷◌, [], ◌++◌, codes, OnOk};
ghost use Rattle.fab_lines.specs.Numbered.{AreNumbered};
ghost use Rattle.fab_rights.specs.Computed.{has_bit};
ghost use Rattle.fab_rights.specs.declared.rights.Rights.{Rights};
ghost use Rattle.fab_settings.specs.Settings.{setting_of};
ghost use Rattle.fab_reads.specs.Reads.{NeverFall, read_line, reads_text, values_after as what_is_read};

use crate::walk::{go_to, values_in};
use fab_base::{NoMemory, Oid, Seq, Value};
use fab_lines::put_values;
use fab_net::Commit;
use fab_serial::at_start;
use fab_trace::put_number;
use fab_tree::resolved::Resolved;
use std::alloc::Global;

/// The line of one read.
fn put_read(
    alloc: Global,
    out: &mut Seq<u8>,
    program: &Resolved,
    number: usize,
    count: u32,
    values: &[Value],
) -> Result<(), NoMemory>
    requires numbered { AreNumbered program.now.roots }
    ensures { OnOk result (out.new ≡ out.old ++ read_line program.now number count values.now) }
{
    out.extend(b"read")?;
    put_number(alloc, out, number as u64)?;
    out.extend(b" after")?;
    put_number(alloc, out, u64::from(count))?;
    put_values(alloc, out, program, values)?;
    out.push(b'\n')
}

/// The lines of the reads of the object of a name, behind what is there: for each count its number, from 1, the count, and the values
/// that the object has behind so many commits. It is one walk, in which each commit's request is evaluated once.
pub fn put_reads(
    alloc: Global,
    out: &mut Seq<u8>,
    program: &Resolved,
    classes: u64,
    commits: &[Commit],
    oid: Oid,
    counts: &[u32],
) -> Result<(), NoMemory>
    requires numbered { AreNumbered program.now.roots }
    requires rising { NeverFall counts.now }
    ensures { OnOk result ((rights : Rights) → out.new ≡ out.old ++ reads_text program.now (what_is_read (setting_of program.now rights) (has_bit classes) commits.now oid) counts.now) }
{
    let many = counts.len();
    let mut map = at_start(alloc, program, classes)?;
    let mut gone = 0;
    let mut number = 0;
    let mut rest = counts;
    while let Some((count, after)) = rest.split_first() {
        gone = go_to(
            alloc,
            program,
            classes,
            commits,
            &mut map,
            gone,
            *count as usize,
        )?;
        number = many - after.len();
        put_read(alloc, out, program, number, *count, values_in(&map, oid))?;
        rest = after;
    }
    Ok(())
}
