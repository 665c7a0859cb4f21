//! What a worker is known to know in an attempt, and where its last run lacks an object.
ghost use Rattle.std.specs.Prelude.{◌≡◌, ◌==◌, ◌&&◌, ◌++◌, ◌∷◌, [], not, length, IfOk, IfSome, OnOk};
ghost use Rattle.fab_base.specs.FlatMap.{is_same, map_of};
ghost use Rattle.fab_meaning.specs.Jobs.{Job as AnyJob};
ghost use Rattle.fab_meaning.specs.Turns.{Turns};
ghost use Rattle.fab_protocol.specs.Versions.{is_made_in, is_tid, objects_of};
ghost use Rattle.fab_known.specs.Knowing.{Lacks, parts_at_end, ran_by};
ghost use Rattle.fab_known.specs.Lasts.{IsAnswer, IsKnown, IsTurned, PausesSo};

use crate::names::{is_one_name, is_one_tid, maker_of};
use crate::run::{FUEL, map_of, parts_at_end};
use fab_base::{NoMemory, Object, Oid, Seq, Tid, Value};
use fab_meaning::{Paused, Turn, begin};
use fab_places::Seen;
use fab_protocol::Parts;
use fab_serial::request_at;
use fab_tree::resolved::Resolved;
use std::alloc::Global;
use std::marker::Model;
use std::mem;

/// Where a run of a worker's request lacks an object: the number of the request, the attempt, and how
/// many rows were known.
#[derive(Drop)]
pub(crate) struct Last<'a> {
    pub(crate) pause: Paused<'a>,
    pub(crate) number: u32,
    pub(crate) tid: Tid,
    pub(crate) rows: usize,
}

/// The objects that a worker is known to know in its attempt, with their versions, and the values that
/// it was given. A run of its request goes on where the last one lacked an object, unless a value was
/// given since, so that the map of what is known isn't made anew at each answer. Contracts don't see
/// where that is.
pub struct Known<'a> {
    alloc: Global,
    part: &'a Resolved,
    seen: Seen,
    rows: Seq<(Oid, u32, Object)>,
    given: Seq<Value>,
    last: Option<Last<'a>>,
}

impl Drop for Known<'_> {
    fn drop(self) {
        let Known {
            alloc,
            part,
            seen,
            rows,
            given,
            last,
        } = self;
    }
}

impl<'a> Model for Known<'a> {
    ghost use Rattle.std.specs.Coded.{codes};
    ghost use Rattle.fab_tree.specs.contracts.resolved.Statement as statements;
    ghost use Rattle.fab_tree.specs.contracts.resolved.Expression as expressions;
    ghost use Rattle.fab_known.specs.Knowing.{Knows};

    ghost Value = { Knows };

    ghost coded = { Prim.hlevel (codes, statements.the_row.coded, expressions.the_row.coded) };

    ghost use Rattle.fab_known.specs.Lasts.{IsKnown};

    ghost view = { λ k. record { rows = k.rows; given = k.given; by = record { program = k.part.now; seen = k.seen } } };

    ghost invariant = { λ k. IsKnown (record { program = k.part.now; seen = k.seen }) k.rows k.given k.last };
}

impl<'a> Known<'a> {
    /// Nothing is known and given.
    pub fn nothing(alloc: Global, part: &'a Resolved, seen: Seen) -> Known<'a>
        ensures { result ≡ record { rows = []; given = []; by = record { program = part.now; seen = seen } } }
    {
        Known {
            alloc,
            part,
            seen,
            rows: Seq::new(alloc),
            given: Seq::new(alloc),
            last: None,
        }
    }

    /// Nothing is known and given any more.
    pub fn clear(&mut self)
        ensures { self.new ≡ record self.old { rows = []; given = [] } }
    {
        self.last = None;
        self.rows = Seq::new(self.alloc);
        self.given = Seq::new(self.alloc);
    }

    /// The objects that are known.
    pub fn rows(&self) -> &[(Oid, u32, Object)]
        ensures { result.now ≡ self.now.rows }
    {
        self.rows.as_slice()
    }

    /// One object more is known.
    pub fn learn(&mut self, row: (Oid, u32, Object)) -> Result<(), NoMemory>
        ensures ok { OnOk result (self.new ≡ record self.old { rows = self.old.rows ++ row ∷ [] }) }
        ensures by { self.new.by ≡ self.old.by }
    {
        Ok(self.rows.push(row)?)
    }

    /// One value more is given. A run begins again then.
    pub fn give(&mut self, value: Value) -> Result<(), NoMemory>
        ensures ok { OnOk result (self.new ≡ record self.old { given = self.old.given ++ value ∷ [] }) }
        ensures by { self.new.by ≡ self.old.by }
    {
        self.last = None;
        Ok(self.given.push(value)?)
    }

    /// The object that a run of a worker's request of this number lacks in an attempt, if it lacks one.
    pub fn lacks(&mut self, number: u32, tid: Tid) -> Result<Option<Oid>, NoMemory>
        ensures lacks { IfOk result (λ o. Lacks o (ran_by self.old.by tid.worker number tid (map_of (objects_of self.old.rows)) self.old.given).ending) }
        ensures same { self.new ≡ self.old }
    {
        let last = mem::replace(&mut self.last, None);
        let rows = self.rows.as_slice();
        let given = self.given.as_slice();
        match turned(
            self.alloc, self.part, self.seen, rows, given, last, number, tid,
        )? {
            None => Ok(None),
            Some(pause) => {
                let oid = pause.oid;
                self.last = Some(Last {
                    pause,
                    number,
                    tid,
                    rows: self.rows.len(),
                });
                Ok(Some(oid))
            }
        }
    }

    /// The parts of an attempt, if the worker's request of this number ends in it. It is run from its
    /// start.
    pub fn parts(&self, number: u32, tid: Tid) -> Result<Option<Parts>, NoMemory>
        ensures { IfOk result (λ parts. parts ≡ parts_at_end self.now.rows (ran_by self.now.by tid.worker number tid (map_of (objects_of self.now.rows)) self.now.given)) }
    {
        let rows = self.rows.as_slice();
        let given = self.given.as_slice();
        parts_at_end(self.alloc, self.part, self.seen, rows, given, number, tid)
    }
}

/// A run goes on where the last one lacked an object, if that is all that is known since, and else it
/// begins.
fn turned<'a>(
    alloc: Global,
    part: &'a Resolved,
    seen: Seen,
    rows: &[(Oid, u32, Object)],
    given: &[Value],
    last: Option<Last<'a>>,
    number: u32,
    tid: Tid,
) -> Result<Option<Paused<'a>>, NoMemory>
    requires { IsKnown (record { program = part.now; seen = seen }) rows.now given.now last }
    ensures { IfOk result (IsTurned (record { program = part.now; seen = seen }) rows.now given.now number tid) }
{
    let Some(last) = last else {
        return begun(alloc, part, seen, rows, given, number, tid);
    };
    match answer(alloc, rows, &last, number, tid)? {
        Some(object) => Ok(pause_of(last.pause.go_on(object)?)),
        None => begun(alloc, part, seen, rows, given, number, tid),
    }
}

/// A run begins.
fn begun<'a>(
    alloc: Global,
    part: &'a Resolved,
    seen: Seen,
    rows: &[(Oid, u32, Object)],
    given: &[Value],
    number: u32,
    tid: Tid,
) -> Result<Option<Paused<'a>>, NoMemory>
    ensures { IfOk result (IsTurned (record { program = part.now; seen = seen }) rows.now given.now number tid) }
{
    let Some(request) = request_at(part, tid.worker, number) else {
        return Ok(None);
    };
    let known = map_of(alloc, rows)?;
    let turn = begin(alloc, part, &seen, known, given, request, tid, FUEL)?;
    Ok(pause_of(turn))
}

/// Where a run lacks an object, if it lacks one.
fn pause_of<'a>(turn: Turn<'a>) -> Option<Paused<'a>>
    ensures { (job : AnyJob) → Turns job turn.entry → PausesSo job result }
{
    match turn {
        Turn::Done(_) => None,
        Turn::Paused(pause) => Some(pause),
    }
}

/// A copy of the object that the last run lacked, if that was of this request in this attempt, and the
/// object is all that is known since.
fn answer(
    alloc: Global,
    rows: &[(Oid, u32, Object)],
    last: &Last<'_>,
    number: u32,
    tid: Tid,
) -> Result<Option<Object>, NoMemory>
    ensures { IfOk result (λ found. IfSome found (IsAnswer rows.now last.now number tid)) }
{
    let Some((row, before)) = rows.split_last() else {
        return Ok(None);
    };
    if is_next(last, before, row.0, number, tid) {
        return Ok(Some(row.2.copy(alloc)?));
    }
    Ok(None)
}

/// Whether the last run was of this request in this attempt, knew just these rows, and lacks the object
/// of this name, which the attempt doesn't make.
fn is_next(last: &Last<'_>, before: &[(Oid, u32, Object)], name: Oid, number: u32, tid: Tid) -> bool
    ensures { result ≡ ((last.now.number == number) && is_tid last.now.tid tid && (length before.now == last.now.rows)
        && is_same name last.now.pause.oid && not (is_made_in tid last.now.pause.oid)) }
{
    last.number == number
        && is_one_tid(last.tid, tid)
        && before.len() == last.rows
        && is_one_name(name, last.pause.oid)
        && !is_one_tid(maker_of(last.pause.oid), tid)
}
