//! Of how many commits each read saw the state.
ghost use Rattle.std.specs.Prelude.{◌≡◌, ◌+◌, ◌++◌, ◌∷◌, [], false, true, map, replicate, length, IfOk};
ghost use Rattle.fab_rights.specs.Computed.{has_bit};
ghost use Rattle.fab_rights.specs.declared.rights.Rights.{Rights};
ghost use Rattle.fab_settings.specs.Settings.{setting_of};
ghost use Rattle.fab_reads.specs.Reads.{AreCounts, NeverFall, fields_of, values_after as what_is_read};
ghost use Rattle.fab_run.specs.Counts.{agree as all_agree, are_equal, counts_beside, counts_with, never_falls};
ghost use Rattle.fab_run.specs.Rows.{saw_rows};

use crate::reader::Seen;
use fab_base::{NoMemory, Object, Seq, Value};
use fab_net::Commit;
use fab_reads::{Reading, values_after};
use fab_tree::resolved::Resolved;
use std::alloc::{AllocError, Global};

/// Whether numbers never fall.
fn never_fall(counts: &[u32]) -> bool
    ensures exact { result ≡ never_falls counts.now }
    ensures yes { result ≡ true → NeverFall counts.now }
    ensures no { result ≡ false → NeverFall counts.now → ⊥ }
{
    let mut last = 0;
    let mut rest = counts;
    while let Some((count, after)) = rest.split_first() {
        if *count < last {
            return false;
        }
        last = *count;
        rest = after;
    }
    true
}

/// The counts of these reads, and behind them that of all commits.
fn counts_seen(alloc: Global, seen: &[Seen], all: u32) -> Result<Seq<u32>, NoMemory>
    ensures { IfOk result (λ counts. counts ≡ map (λ one. one.0) seen.now ++ all ∷ []) }
{
    let mut counts = Seq::new(alloc);
    for one in seen {
        counts.push(one.0)?;
    }
    counts.push(all)?;
    Ok(counts)
}

/// The counts where each read comes behind the run.
fn all_behind(alloc: Global, times: u32, all: u32) -> Result<Seq<u32>, NoMemory>
    ensures { IfOk result (λ counts. counts ≡ replicate (times + 1) all) }
{
    let mut counts = Vec::new(alloc);
    'reads: while counts.len() < times as usize + 1 {
        counts.push(all)?;
    }
    Ok(Seq::from_vec(counts))
}

/// The values of an object that was seen; none where there was none.
fn values_of(found: &Option<Object>) -> &[Value]
    ensures { result.now ≡ fields_of found.now }
{
    match found {
        Some(object) => object.fields.as_slice(),
        None => [].as_slice(),
    }
}

/// Whether these are the same values in the same order.
fn is_one_row(row: &[Value], other: &[Value]) -> bool
    ensures { result ≡ are_equal row.now other.now }
{
    row == other
}

/// Whether each read saw the values that stand in its place.
fn is_as_seen(rows: &[Seq<Value>], seen: &[Seen]) -> bool
    ensures { result ≡ saw_rows rows.now seen.now }
{
    let mut rows_left = rows;
    let mut left = seen;
    while let Some((one, after)) = left.split_first() {
        let Some((row, behind)) = rows_left.split_first() else {
            return false;
        };
        if !is_one_row(row.as_slice(), values_of(&one.1)) {
            return false;
        }
        rows_left = behind;
        left = after;
    }
    true
}

/// Whether the reads agree with a run of these commits; the counts are those of the reads, with that of all behind them. The requests of the
/// commits are evaluated again, up to the last that a read saw.
fn agree(
    alloc: Global,
    program: &Resolved,
    reading: Reading,
    commits: &[Commit],
    seen: &[Seen],
    counts: &[u32],
) -> Result<bool, NoMemory>
    requires { counts.now ≡ counts_with commits.now seen.now }
    ensures { IfOk result (λ answer. (rights : Rights)
        → answer ≡ all_agree reading.times commits.now (what_is_read (setting_of program.now rights) (has_bit reading.classes) commits.now reading.oid) seen.now) }
{
    if seen.len() != reading.times as usize {
        return Ok(false);
    }
    if !never_fall(counts) {
        return Ok(false);
    }
    let rows = values_after(
        alloc,
        program,
        reading.classes,
        commits,
        reading.oid,
        &counts[..seen.len()],
    )?;
    Ok(is_as_seen(rows.as_slice(), seen))
}

/// The counts of the reads beside a run of these commits: those that were seen, where none fell and each read saw the object as it is behind
/// so many commits; else every read is taken as one behind the run. So whoever makes the lines anew from the commits writes what was read.
pub(crate) fn counts_of(
    alloc: Global,
    program: &Resolved,
    reading: Reading,
    commits: &[Commit],
    seen: &[Seen],
) -> Result<Seq<u32>, NoMemory>
    ensures exact { IfOk result (λ counts. (rights : Rights)
        → counts ≡ counts_beside reading.times commits.now (what_is_read (setting_of program.now rights) (has_bit reading.classes) commits.now reading.oid) seen.now) }
    ensures counts { IfOk result (AreCounts reading.times commits.now) }
{
    let Ok(all) = u32::try_from(commits.len()) else {
        return Err(AllocError);
    };
    let counts = counts_seen(alloc, seen, all)?;
    if agree(alloc, program, reading, commits, seen, counts.as_slice())? {
        return Ok(counts);
    }
    all_behind(alloc, reading.times, all)
}
