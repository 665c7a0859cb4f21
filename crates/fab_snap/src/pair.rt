//! The two ends.
ghost use Rattle.std.specs.Prelude.{◌≡◌, ◌≤◌, ◌<◌, ◌^◌, false, true, [], ◌∷◌, ◌++◌, length, IsSome, IfOk, IfSome, MatchOption, None, Some, OnErr, OnOk};
ghost use Rattle.left_right.specs.Sides.{view};
ghost use Rattle.fab_snap.specs.Commits.{StartsWith, object_at, rows_after};
ghost use Rattle.fab_snap.specs.Rule.{Leads};
ghost use Rattle.fab_snap.specs.Shown.{start_of};

use crate::rule::{Notes, Published, Sees, View};
use crate::state::{Change, Snap};
use crate::write_set::WriteSet;
use core::mem::replace_with;
use fab_base::{NoMemory, Object, Oid};
use fab_versions::Table;
use left_right::reader::Reader;
use left_right::writer::Writer;
use std::alloc::{AllocError, Global};
use std::marker::Model;
use std::snapshot::Snapshot;
use std::sync::Wait;

/// Who adds commits. It isn't `Drop`: end it by `close`.
pub struct SnapWriter {
    writer: Writer<Snap, Change, View, Published>,
    commits: Vec<WriteSet>,
    broken: bool,
}

impl Model for SnapWriter {
    ghost use Rattle.std.specs.Prelude.{◌≡◌, false, [], drop};
    ghost use Rattle.left_right.specs.Sides.{view as known_by};
    ghost use Rattle.fab_snap.specs.Ends.{Adding};
    ghost use Rattle.fab_snap.specs.Rule.{Leads};
    ghost use Rattle.fab_snap.specs.Shown.{start_of};

    ghost Value = { Adding };

    ghost view = { λ w. record { start = start_of w.writer.desk.shown.value; commits = w.commits.items; broken = w.broken } };

    ghost invariant = { λ w. Leads w.writer.desk.shown.value (known_by w.writer.desk.place) w.commits.items × (w.broken ≡ false → drop w.writer.behind w.writer.log.items ≡ []) };
}

/// Who reads.
#[derive(Drop)]
pub struct SnapReader {
    reader: Reader<Snap, View, Published>,
}

impl Model for SnapReader {
    ghost use Rattle.std.specs.Prelude.{IsSome};
    ghost use Rattle.left_right.specs.Sides.{view as known_by};
    ghost use Rattle.fab_snap.specs.Ends.{Reading};
    ghost use Rattle.fab_snap.specs.Rule.{start_known};

    ghost Value = { Reading };

    ghost view = { λ r. record { start = start_known (known_by r.reader.place); seen = (known_by r.reader.place).seen; told = (known_by r.reader.place).told } };

    ghost invariant = { λ r. IsSome (known_by r.reader.place).start };
}

/// A writer of these rows with no commit, with room for so many readers at once. It keeps a second
/// copy of the rows. Nobody reads yet, so it waits for nobody.
pub fn snap_writer<R: Wait>(
    rt: &R,
    alloc: Global,
    start: Table,
    readers: usize,
) -> Result<SnapWriter, NoMemory>
    requires { (0 < readers) × (readers < 2 ^ 32) }
    ensures { IfOk result (λ w. w ≡ record { start = start.rows; commits = []; broken = false }) }
{
    let second = Snap::first(alloc, start.copy(alloc)?);
    let first = Snap::first(alloc, start);
    let writer: Writer<Snap, Change, View, Published> = Writer::new(alloc, first, second, readers)?;
    let (writer, published) = writer.publish_as::<Sees, R>(rt);
    match published {
        Ok(()) => Ok(SnapWriter {
            writer,
            commits: Vec::new(alloc),
            broken: false,
        }),
        Err(_) => {
            drop(writer.take(rt));
            Err(AllocError)
        }
    }
}

impl SnapWriter {
    /// One more reader. It has seen nothing, and is told of each commit that there is. It comes back
    /// as want of memory where so many readers are there already.
    pub fn reader(&mut self) -> Result<SnapReader, NoMemory>
        ensures reader { IfOk result (λ r. r ≡ record { start = self.old.start; seen = []; told = self.old.commits }) }
        ensures kept { self.new ≡ self.old }
    {
        let mut reader = self.writer.factory().reader()?;
        reader.learn::<Notes>(self.writer.tell::<Notes>());
        Ok(SnapReader { reader })
    }

    /// How many commits were added.
    pub fn count(&self) -> u32
        ensures { result ≡ length self.now.commits }
    {
        self.writer.published().count
    }

    /// The commits that were added.
    pub fn commits(&self) -> &[WriteSet]
        ensures { result.now ≡ self.now.commits }
    {
        self.commits.as_slice()
    }

    /// The object that stands under a name behind all commits.
    pub fn object(&self, oid: Oid) -> Option<&Object>
        ensures { MatchOption result (object_at oid (rows_after self.now.start self.now.commits) ≡ None) (λ found. object_at oid (rows_after self.now.start self.now.commits) ≡ Some found.now) }
    {
        match self.writer.published().rows.get(oid) {
            Some((_, object)) => Some(object),
            None => None,
        }
    }

    /// Whether a commit was refused.
    pub fn is_broken(&self) -> bool
        ensures { result ≡ self.now.broken }
    {
        self.broken
    }

    /// Publishes what a commit leaves, all at once, and adds the commit to the list. It waits for those
    /// who still read the copy of the state that the last call took from readers. Each object is copied
    /// three times. Without memory, what is published and the list stay, and nothing can be added from
    /// then on; 4,294,967,295 commits are the most, and one more is answered so, too.
    pub fn add<R: Wait>(&mut self, rt: &R, commit: &WriteSet) -> Result<(), NoMemory>
        requires { self.old.broken ≡ false }
        ensures ok { OnOk result (self.new ≡ record self.old { commits = self.old.commits ++ commit.now ∷ [] }) }
        ensures err { OnErr result (self.new ≡ record self.old { broken = true }) }
    {
        replace_with(self, (rt, commit), |writer, (rt, commit)| {
            writer.added(rt, commit)
        })
    }

    fn added<R: Wait>(self, rt: &R, commit: &WriteSet) -> (SnapWriter, Result<(), NoMemory>)
        requires { self.broken ≡ false }
        ensures ok { OnOk result.1 (result.0 ≡ record self { commits = self.commits ++ commit.now ∷ [] }) }
        ensures err { OnErr result.1 (result.0 ≡ record self { broken = true }) }
    {
        let SnapWriter {
            mut writer,
            mut commits,
            broken: _,
        } = self;
        let Ok(change) = changed(&mut commits, commit) else {
            return (refused(writer, commits), Err(AllocError));
        };
        if writer.append(change).is_err() {
            commits.pop();
            return (refused(writer, commits), Err(AllocError));
        }
        let (writer, published) = writer.publish_as::<Sees, R>(rt);
        match published {
            Ok(()) => {
                let writer = SnapWriter {
                    writer,
                    commits,
                    broken: false,
                };
                (writer, Ok(()))
            }
            Err(_) => {
                commits.pop();
                (refused(writer, commits), Err(AllocError))
            }
        }
    }

    /// Waits for those who read, and gives up what was published.
    pub fn close<R: Wait>(self, rt: &R) {
        let SnapWriter {
            writer,
            commits: _commits,
            broken: _,
        } = self;
        drop(writer.take(rt));
    }
}

/// A writer to which nothing can be added.
fn refused(writer: Writer<Snap, Change, View, Published>, commits: Vec<WriteSet>) -> SnapWriter
    requires { Leads writer.desk.shown.value (view writer.desk.place) commits.items }
    ensures { result ≡ record { start = start_of writer.desk.shown.value; commits = commits.items; broken = true } }
{
    SnapWriter {
        writer,
        commits,
        broken: true,
    }
}

/// Adds a commit to the list: the change to be published.
fn changed(commits: &mut Vec<WriteSet>, commit: &WriteSet) -> Result<Change, NoMemory>
    ensures ok { IfOk result (λ c. (c.commit ≡ commit.now) × (commits.new.items ≡ commits.old.items ++ commit.now ∷ []) × (c.all.value.items ≡ commits.new.items)) }
    ensures err { OnErr result (commits.new.items ≡ commits.old.items) }
{
    let alloc = *commits.allocator();
    let shown = commit.copy(alloc)?;
    let kept = commit.copy(alloc)?;
    commits.push(kept)?;
    Ok(Change {
        commit: shown,
        all: Snapshot::of(commits),
    })
}

impl SnapReader {
    /// How many commits are seen, and the object that stands under a name behind them. They begin with
    /// all that was seen before, and with all that was told of. It waits for nobody, and copies the
    /// object. Where the writer was closed there is nothing to be seen: it is answered as want of
    /// memory is.
    pub fn read(&mut self, oid: Oid) -> Result<(u32, Option<Object>), NoMemory>
        ensures later { StartsWith self.new.seen self.old.seen }
        ensures told { OnOk result (StartsWith self.new.seen self.old.told) }
        ensures value { IfOk result (λ r. (r.0 ≡ length self.new.seen) × (r.1 ≡ object_at oid (rows_after self.old.start self.new.seen))) }
        ensures kept { (self.new.start ≡ self.old.start) × (self.new.told ≡ self.old.told) }
    {
        replace_with(&mut self.reader, oid, |reader, oid| {
            read_of(reader, oid)
        })
    }
}

/// How many commits are seen, and the object that stands under a name behind them, with the reader
/// again.
fn read_of(
    reader: Reader<Snap, View, Published>,
    oid: Oid,
) -> (
    Reader<Snap, View, Published>,
    Result<(u32, Option<Object>), NoMemory>,
)
    requires { IsSome (view reader.place).start }
    ensures later { StartsWith (view result.0.place).seen (view reader.place).seen }
    ensures told { OnOk result.1 (StartsWith (view result.0.place).seen (view reader.place).told) }
    ensures value { IfOk result.1 (λ r. (r.0 ≡ length (view result.0.place).seen) × IfSome (view reader.place).start (λ start. r.1 ≡ object_at oid (rows_after start (view result.0.place).seen))) }
    ensures kept { ((view result.0.place).start ≡ (view reader.place).start) × ((view result.0.place).told ≡ (view reader.place).told) }
{
    match reader.enter_as::<Sees>() {
        Ok(reading) => {
            let shown = reading.get();
            let count = shown.count;
            let found = shown.object(oid);
            let reader = reading.leave();
            match found {
                Ok(object) => (reader, Ok((count, object))),
                Err(_) => (reader, Err(AllocError)),
            }
        }
        Err(reader) => (reader, Err(AllocError)),
    }
}

/// The last read, by a reader of its own: how many commits are seen, which are no fewer than the
/// writer's, and the object that stands under a name behind them.
pub fn last_read(writer: &mut SnapWriter, oid: Oid) -> Result<(u32, Option<Object>), NoMemory>
    ensures all { IfOk result (λ r. length writer.old.commits ≤ r.0) }
    ensures value { IfOk result (λ r. r.0 ≡ length writer.old.commits → r.1 ≡ object_at oid (rows_after writer.old.start writer.old.commits)) }
    ensures kept { writer.new ≡ writer.old }
{
    writer.reader()?.read(oid)
}
