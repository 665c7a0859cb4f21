//! Rows in a vector, in the order of names.
ghost use Rattle.std.specs.Prelude.{◌≡◌, ◌+◌, ◌/◌, ◌<◌, ◌≤◌, [], ◌++◌, None, Some, MatchOption, IsTrue, IsSome, IsOk, is_some, IfOk, IfErr, IfSome, IfNone, OnOk, OnErr, length};
ghost use Rattle.fab_protocol.specs.Tables.{row_of, placed, placed_all, ascends};
ghost use Rattle.fab_protocol.specs.Versions.{name_of};
ghost use Rattle.fab_versions.specs.Blocked.{AreBefore, IsCut};
ghost use Rattle.fab_versions.specs.Places.{IsAt, IsGap};

use fab_base::{NoMemory, Object, Oid};
use std::alloc::Global;
use std::cmp::Ordering;
use std::marker::Model;

/// No fewer rows than these go to a block of their own, where there are twice as many.
const FEWEST: usize = 64;

/// Objects with their versions, each name once, in the order of names. Contracts see these rows,
/// and for how many more there is room without taking memory. A new name moves all rows behind it,
/// so this is for few rows, or for such as come in their order.
#[derive(Debug)]
pub(crate) struct RowList {
    rows: Vec<(Oid, u32, Object)>,
}

impl Drop for RowList {
    fn drop(self) {
        let RowList { rows } = self;
    }
}

impl Model for RowList {
    ghost use Rattle.std.specs.Prelude.{◌-◌, IsTrue, vec_len, vec_capacity};
    ghost use Rattle.fab_protocol.specs.Tables.{ascends};
    ghost use Rattle.fab_protocol.specs.Versions.{name_of};
    ghost use Rattle.fab_versions.specs.Holdings.{Holding};

    ghost Value = { Holding };

    ghost view = { λ t. record { rows = t.rows.items; spare = vec_capacity t.rows - vec_len t.rows } };

    ghost invariant = { λ t. IsTrue (ascends name_of t.rows.items) };
}

impl RowList {
    /// No rows. It takes no memory.
    pub(crate) fn new(alloc: Global) -> RowList
        ensures { result ≡ record { rows = []; spare = 0 } }
    {
        RowList {
            rows: Vec::new(alloc),
        }
    }

    /// The rows of a vector, without taking memory.
    pub(crate) fn from_vec(rows: Vec<(Oid, u32, Object)>) -> RowList
        requires { IsTrue (ascends name_of rows.items) }
        ensures { result.rows ≡ rows.items }
    {
        RowList { rows }
    }

    /// The vector of the rows, without taking memory.
    pub(crate) fn into_vec(self) -> Vec<(Oid, u32, Object)>
        ensures rows { result.items ≡ self.rows }
        ensures ascending { IsTrue (ascends name_of self.rows) }
    {
        let RowList { rows } = self;
        rows
    }

    /// How many rows there are.
    pub(crate) fn len(&self) -> usize
        ensures count { result ≡ length self.now.rows }
        ensures ascending { IsTrue (ascends name_of self.now.rows) }
    {
        self.rows.len()
    }

    /// The version and the object of this name, where it is there.
    pub(crate) fn get(&self, oid: Oid) -> Option<(u32, &Object)>
        ensures found { MatchOption result (row_of name_of self.now.rows oid ≡ None) (λ found. row_of name_of self.now.rows oid ≡ Some (oid, found.0, found.1.now)) }
        ensures ascending { IsTrue (ascends name_of self.now.rows) }
    {
        match place(&self.rows, oid) {
            Ok(at) => {
                let row = &self.rows[at];
                Some((row.1, &row.2))
            }
            Err(_) => None,
        }
    }

    /// Whether a row has this name.
    pub(crate) fn has(&self, oid: Oid) -> bool
        ensures has { result ≡ is_some (row_of name_of self.now.rows oid) }
        ensures ascending { IsTrue (ascends name_of self.now.rows) }
    {
        match self.get(oid) {
            Some(_) => true,
            None => false,
        }
    }

    /// Puts an object at a version, in the place of the one of its name or beside the others. Only a
    /// new name takes memory, and none where there is spare room.
    pub(crate) fn put(&mut self, oid: Oid, version: u32, object: Object) -> Result<(), NoMemory>
        ensures ok { OnOk result (self.new.rows ≡ placed name_of (oid, version, object) self.old.rows) }
        ensures err { OnErr result (self.new.rows ≡ self.old.rows) }
        ensures sure { 0 < self.old.spare → IsOk result }
        ensures spare { self.old.spare ≤ self.new.spare + 1 }
        ensures there { IsSome (row_of name_of self.old.rows oid) → IsOk result }
        ensures same_room { IsSome (row_of name_of self.old.rows oid) → self.old.spare ≤ self.new.spare }
    {
        match place(&self.rows, oid) {
            Ok(at) => {
                self.rows[at] = (oid, version, object);
                Ok(())
            }
            Err(at) => Ok(self.rows.insert(at, (oid, version, object))?),
        }
    }

    /// Puts an object at a version, in the place of the one of its name or beside the others. A new name
    /// is refused where there are so many rows and where there is no memory: then the object comes back.
    pub(crate) fn put_few(
        &mut self,
        most: usize,
        oid: Oid,
        version: u32,
        object: Object,
    ) -> Result<(), Object>
        ensures ok { OnOk result (self.new.rows ≡ placed name_of (oid, version, object) self.old.rows) }
        ensures err { OnErr result (self.new.rows ≡ self.old.rows) }
        ensures sure { length self.old.rows < most → 0 < self.old.spare → IsOk result }
        ensures absent { OnErr result (row_of name_of self.old.rows oid ≡ None) }
        ensures back { IfErr result (λ back. back ≡ object) }
    {
        match place(&self.rows, oid) {
            Ok(at) => {
                self.rows[at] = (oid, version, object);
                Ok(())
            }
            Err(at) => {
                if most <= self.rows.len() {
                    return Err(object);
                }
                match self.rows.insert(at, (oid, version, object)) {
                    Ok(()) => Ok(()),
                    Err(refused) => {
                        let (_, _, back) = refused.value;
                        Err(back)
                    }
                }
            }
        }
    }

    /// Takes the upper rows out, from the place of a new name on (`place_to_cut`), and says with which name
    /// they begin. `None` where there are fewer than two rows, or no memory: then the rows stay.
    pub(crate) fn cut(&mut self, oid: Oid) -> Option<(Oid, RowList)>
        ensures none { IfNone result (self.new.rows ≡ self.old.rows) }
        ensures cut { IfSome result (λ upper. IsCut self.old.rows self.new.rows upper.0 upper.1.rows) }
        ensures room { IfSome result (λ upper. length upper.1.rows ≤ self.new.spare) }
    {
        let at = place_to_cut(&self.rows, oid);
        if at == 0 {
            return None;
        }
        let name = self.rows[at].0;
        match self.rows.split_off(at) {
            Ok(upper) => Some((name, RowList { rows: upper })),
            Err(_) => None,
        }
    }

    /// Rows go behind the others, for which there is room.
    pub(crate) fn join(&mut self, upper: RowList)
        requires room { length upper.rows ≤ self.old.spare }
        requires ascending { IsTrue (ascends name_of (self.old.rows ++ upper.rows)) }
        ensures { self.new.rows ≡ self.old.rows ++ upper.rows }
    {
        let mut rows = upper.into_vec();
        let _ = self.rows.append(&mut rows);
    }

    /// A list of the same rows. Each object is copied once.
    pub(crate) fn copy(&self, alloc: Global) -> Result<RowList, NoMemory>
        ensures { IfOk result (λ copy. copy.rows ≡ self.now.rows) }
    {
        Ok(RowList {
            rows: copied(alloc, self.rows.as_slice())?,
        })
    }

    /// Takes the last row out. It takes no memory.
    pub(crate) fn pop(&mut self) -> Option<(Oid, u32, Object)>
        ensures none { IfNone result (self.new ≡ self.old) }
        ensures rows { IfSome result (λ row. self.old.rows ≡ placed name_of row self.new.rows) }
        ensures absent { IfSome result (λ row. row_of name_of self.new.rows row.0 ≡ None) }
        ensures ascending { IsTrue (ascends name_of self.new.rows) }
        ensures fewer { IfSome result (λ _. length self.new.rows < length self.old.rows) }
        ensures spare { IfSome result (λ _. self.old.spare < self.new.spare) }
    {
        self.rows.pop()
    }

    /// Puts rows one after the other.
    pub(crate) fn put_all(&mut self, rows: Vec<(Oid, u32, Object)>) -> Result<(), NoMemory>
        ensures { OnOk result (self.new.rows ≡ placed_all name_of rows.items self.old.rows) }
    {
        let mut rest = rows;
        rest.reverse();
        while let Some((oid, version, object)) = rest.pop() {
            self.put(oid, version, object)?;
        }
        Ok(())
    }

    /// Makes room for so many more rows.
    pub(crate) fn reserve(&mut self, more: u32) -> Result<(), NoMemory>
        ensures made { OnOk result (more ≤ self.new.spare) }
        ensures rows { self.new.rows ≡ self.old.rows }
        ensures spare { self.old.spare ≤ self.new.spare }
    {
        self.rows.reserve(more as usize)
    }
}

/// The same rows. Each object is copied once.
fn copied(alloc: Global, rows: &[(Oid, u32, Object)]) -> Result<Vec<(Oid, u32, Object)>, NoMemory>
    ensures { IfOk result (λ copy. copy.items ≡ rows.now) }
{
    let mut copy = Vec::new(alloc);
    copy.reserve(rows.len())?;
    let mut rest = rows;
    'rows: while let Some((row, after)) = rest.split_first() {
        copy.push((row.0, row.1, row.2.copy(alloc)?))?;
        rest = after;
    }
    Ok(copy)
}

/// Where to cut for a new name: at its place, so that the rows behind it don't move again for those that
/// follow it, but not below the half, and not among the last 64, so that no part has few rows.
fn place_to_cut(rows: &[(Oid, u32, Object)], oid: Oid) -> usize
    requires { IsTrue (ascends name_of rows.now) }
    ensures half { length rows.now / 2 ≤ result }
    ensures inside { 0 < result → result < length rows.now }
{
    let half = rows.len() / 2;
    let last = rows.len().saturating_sub(FEWEST);
    let at = match place(rows, oid) {
        Ok(at) => at,
        Err(at) => at,
    };
    at.min(last).max(half)
}

/// Where the row of this name stands, or where it would go.
fn place(rows: &[(Oid, u32, Object)], oid: Oid) -> Result<usize, usize>
    requires { IsTrue (ascends name_of rows.now) }
    ensures found { IfOk result (IsAt name_of rows.now oid) }
    ensures absent { IfErr result (IsGap name_of rows.now oid) }
{
    // A new name mostly goes behind all others.
    if goes_behind(rows, oid) {
        return Err(rows.len());
    }
    rows.binary_search_by_key(&oid, |row| row.0)
}

/// Whether there are rows, and this name goes behind the last of them.
fn goes_behind(rows: &[(Oid, u32, Object)], oid: Oid) -> bool
    requires { IsTrue (ascends name_of rows.now) }
    ensures { IsTrue result → (0 < length rows.now) × AreBefore oid rows.now }
{
    match rows.len().checked_sub(1) {
        Some(last) => match rows[last].0.cmp(&oid) {
            Ordering::Less => true,
            Ordering::Equal | Ordering::Greater => false,
        },
        None => false,
    }
}
