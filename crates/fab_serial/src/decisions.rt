//! The commits that a log tells of.
ghost use Rattle.std.specs.Prelude.{◌≡◌, ◌++◌, ℕ, Bool, false, not, filter, flat_map, IfOk, OnOk};
ghost use Rattle.fab_world.specs.Serial.{commit_in, commits_of};
ghost use Rattle.fab_serial.specs.Replays.{commits_at};

use fab_base::{NoMemory, Object, Oid, Seq};
use fab_net::{Commit, Logged, Note};
use std::alloc::Global;

/// The commits of all workers, in the order of their decisions. A decision whose record was cut is no
/// commit, as the log has no note of it.
pub fn commits(alloc: Global, log: &[Logged]) -> Result<Seq<Commit>, NoMemory>
    ensures all { IfOk result (λ commits. commits ≡ commits_of (λ n. false) log.now) }
    ensures any { IfOk result (λ commits. (distrusted : ℕ → Bool) → filter (λ c. not (distrusted c.worker)) commits ≡ commits_of distrusted log.now) }
{
    Ok(Seq::from_vec(decided(alloc, log)?))
}

/// The commits in the notes of these events.
fn decided(alloc: Global, log: &[Logged]) -> Result<Vec<Commit>, NoMemory>
    ensures { IfOk result (λ commits. commits.items ≡ flat_map commits_at log.now) }
{
    let mut commits = Vec::new(alloc);
    let mut rest = log;
    while let Some((logged, after)) = rest.split_first() {
        add_commits(alloc, &mut commits, logged.notes.as_slice())?;
        rest = after;
    }
    Ok(commits)
}

/// The commits in these notes, behind those so far.
fn add_commits(alloc: Global, commits: &mut Vec<Commit>, notes: &[Note]) -> Result<(), NoMemory>
    ensures { OnOk result (commits.new.items ≡ commits.old.items ++ flat_map commit_in notes.now) }
{
    let mut rest = notes;
    while let Some((note, after)) = rest.split_first() {
        add_commit(alloc, commits, note)?;
        rest = after;
    }
    Ok(())
}

/// The commit in a note, if it tells of one, behind those so far.
fn add_commit(alloc: Global, commits: &mut Vec<Commit>, note: &Note) -> Result<(), NoMemory>
    ensures { OnOk result (commits.new.items ≡ commits.old.items ++ commit_in note.now) }
{
    if let Note::Decided {
        tid,
        request,
        commit: true,
        answers,
    } = note
    {
        commits.push(Commit {
            worker: tid.worker,
            request: *request,
            tid: *tid,
            answers: copies(alloc, answers.as_slice())?,
        })?;
    }
    Ok(())
}

/// The same answers again.
fn copies(alloc: Global, rows: &[(Oid, u32, Object)]) -> Result<Seq<(Oid, u32, Object)>, NoMemory>
    ensures { IfOk result (λ copies. copies ≡ rows.now) }
{
    let mut copies = Seq::new(alloc);
    for row in rows {
        copies.push((row.0, row.1, row.2.copy(alloc)?))?;
    }
    Ok(copies)
}
