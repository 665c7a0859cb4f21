//! The values of one object behind some of a run's commits.
ghost use Rattle.std.specs.Prelude.{◌≡◌, map, IfOk};
ghost use Rattle.fab_rights.specs.Computed.{has_bit};
ghost use Rattle.fab_rights.specs.declared.rights.Rights.{Rights};
ghost use Rattle.fab_settings.specs.Settings.{setting_of};
ghost use Rattle.fab_reads.specs.Reads.{NeverFall, values_after as what_is_read};

use crate::walk::{go_to, values_in};
use fab_base::{NoMemory, Oid, Seq, Value};
use fab_net::Commit;
use fab_serial::at_start;
use fab_tree::resolved::Resolved;
use std::alloc::Global;

/// The values that the object of a name has behind each of these numbers of commits: none where it isn't there. It is one walk, in which
/// each commit's request is evaluated once; a number beyond all commits is taken as that of all.
pub fn values_after(
    alloc: Global,
    program: &Resolved,
    classes: u64,
    commits: &[Commit],
    oid: Oid,
    counts: &[u32],
) -> Result<Seq<Seq<Value>>, NoMemory>
    requires rising { NeverFall counts.now }
    ensures { IfOk result (λ rows. (rights : Rights) → rows ≡ map (what_is_read (setting_of program.now rights) (has_bit classes) commits.now oid) counts.now) }
{
    let mut map = at_start(alloc, program, classes)?;
    let mut rows = Seq::new(alloc);
    let mut gone = 0;
    let mut rest = counts;
    while let Some((count, after)) = rest.split_first() {
        gone = go_to(
            alloc,
            program,
            classes,
            commits,
            &mut map,
            gone,
            *count as usize,
        )?;
        rows.push(Seq::from_slice(alloc, values_in(&map, oid))?)?;
        rest = after;
    }
    Ok(rows)
}
