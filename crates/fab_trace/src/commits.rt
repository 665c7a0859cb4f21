//! Lines of what was decided.
ghost use Rattle.std.specs.Prelude.{◌≡◌, ◌+◌, ◌++◌, ◌∷◌, [], OnOk, IfOk, codes, flat_map, length};
ghost use Rattle.std.specs.Fmt.{decimal};
ghost use Rattle.fab_language.specs.Words.{line, spaced, node_text};
ghost use Rattle.fab_trace.specs.Report.{commit_of, commits_in, commits_text, tid_text};

use crate::words::{put_node, put_number, put_tid};
use fab_base::{NoMemory, Seq, Tid};
use fab_net::{Logged, Note};
use fab_tree::resolved::Resolved;
use std::alloc::{AllocError, Global};

/// The line of a commit.
fn put_commit(
    alloc: Global,
    out: &mut Seq<u8>,
    start: &Resolved,
    number: u64,
    request: u32,
    tid: Tid,
) -> Result<(), NoMemory>
    ensures { OnOk result (out.new ≡ out.old
        ++ line (codes "commit" ++ spaced (decimal number ∷ node_text start.now tid.worker ∷ decimal request ∷ tid_text tid ∷ []))) }
{
    out.extend(b"commit")?;
    put_number(alloc, out, number)?;
    put_node(out, start, tid.worker)?;
    put_number(alloc, out, u64::from(request))?;
    put_tid(alloc, out, tid)?;
    out.push(b'\n')
}

/// A line if a note says that a commit was decided, behind so many others. The answer is how many
/// there are then; a text of more than 64 bits can count has no room in memory.
fn put_note(
    alloc: Global,
    out: &mut Seq<u8>,
    start: &Resolved,
    others: u64,
    note: &Note,
) -> Result<u64, NoMemory>
    ensures text { OnOk result (out.new ≡ out.old ++ commits_text start.now others (commit_of note.now)) }
    ensures count { IfOk result (λ n. n ≡ others + length (commit_of note.now)) }
{
    match note {
        Note::Decided {
            tid,
            request,
            commit: true,
            answers: _,
        } => {
            let number = others.checked_add(1).ok_or(AllocError)?;
            put_commit(alloc, out, start, number, *request, *tid)?;
            Ok(number)
        }
        _ => Ok(others),
    }
}

/// A line for each commit that these notes say, behind so many others. The answer is how many there
/// are then.
fn put_notes(
    alloc: Global,
    out: &mut Seq<u8>,
    start: &Resolved,
    others: u64,
    notes: &[Note],
) -> Result<u64, NoMemory>
    ensures text { OnOk result (out.new ≡ out.old ++ commits_text start.now others (flat_map commit_of notes.now)) }
    ensures count { IfOk result (λ n. n ≡ others + length (flat_map commit_of notes.now)) }
{
    let mut number = others;
    let mut rest = notes;
    'notes: while let Some((note, after)) = rest.split_first() {
        number = put_note(alloc, out, start, number, note)?;
        rest = after;
    }
    Ok(number)
}

/// A line for each commit, numbered from 1 in the order of decision.
pub(crate) fn put_commits(
    alloc: Global,
    out: &mut Seq<u8>,
    start: &Resolved,
    log: &[Logged],
) -> Result<(), NoMemory>
    ensures { OnOk result (out.new ≡ out.old ++ commits_text start.now 0 (commits_in log.now)) }
{
    let mut number = 0;
    let mut rest = log;
    'events: while let Some((logged, after)) = rest.split_first() {
        number = put_notes(alloc, out, start, number, logged.notes.as_slice())?;
        rest = after;
    }
    Ok(())
}
