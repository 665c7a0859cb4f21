//! Rows in blocks, in the order of names.
ghost use Rattle.std.specs.Prelude.{◌≡◌, ◌<◌, [], length, not, MatchOption, IsTrue, IfOk, IfErr, OnOk, OnErr, None, Some};
ghost use Rattle.fab_base.specs.FlatMap.{is_before};
ghost use Rattle.fab_protocol.specs.Tables.{row_of, placed, ascends};
ghost use Rattle.fab_protocol.specs.Versions.{name_of};
ghost use Rattle.fab_versions.specs.Blocked.{rows_in, AreBehind, InBlocks, IsBlockAt};

use crate::row_list::RowList;
use fab_base::{NoMemory, Object, Oid};
use std::alloc::Global;
use std::cmp::Ordering;
use std::marker::Model;

/// A block of so many rows takes no new name.
const MOST: usize = 1024;

/// Objects with their versions, each name once, in the order of names. Contracts see these rows.
///
/// They stand in blocks, each a vector under a lower bound of its names, and the blocks in a vector in the
/// order of these bounds. So a look-up is two binary searches. A new name moves the rows of one block at
/// most, and where the block is full, the blocks behind it, 48 bytes each: that is once in 64 names at the
/// most, since no cut leaves fewer rows in a block. Names that come in their order fill their blocks but for
/// 64 rows, in front of others that stay, too. The first block is under the least name, so that each name
/// has a block. A map of blocks would take two walks for a put, each with more comparisons than both searches.
/// What is written goes in the order of names, so the block of the last put is asked first (`near`).
#[derive(Debug)]
pub(crate) struct Blocks {
    alloc: Global,
    blocks: Vec<(Oid, RowList)>,
    near: usize,
}

impl Drop for Blocks {
    fn drop(self) {
        let Blocks {
            alloc,
            blocks,
            near,
        } = self;
    }
}

impl Model for Blocks {
    ghost use Rattle.fab_protocol.specs.Versions.{Rows};
    ghost use Rattle.fab_versions.specs.Blocked.{rows_in, InBlocks};

    ghost Value = { Rows };

    ghost view = { λ t. rows_in t.blocks.items };

    ghost invariant = { λ t. InBlocks t.blocks.items };
}

impl Blocks {
    /// No rows. It takes no memory.
    pub(crate) fn new(alloc: Global) -> Blocks
        ensures { result ≡ [] }
    {
        Blocks {
            alloc,
            blocks: Vec::new(alloc),
            near: 0,
        }
    }

    /// Whether there is no block yet, and so no row.
    pub(crate) fn has_no_block(&self) -> bool
        ensures { IsTrue result → self.now ≡ [] }
    {
        self.blocks.is_empty()
    }

    /// Does nothing: it is there for what its contract says of the order of the rows.
    pub(crate) fn walk_in_order(&self)
        ensures { IsTrue (ascends name_of self.now) }
    {
        let _ = self.blocks.len();
    }

    /// The version and the object of this name, where it is there.
    pub(crate) fn get(&self, oid: Oid) -> Option<(u32, &Object)>
        ensures { MatchOption result (row_of name_of self.now oid ≡ None) (λ found. row_of name_of self.now oid ≡ Some (oid, found.0, found.1.now)) }
    {
        match block_of(self.blocks.as_slice(), oid) {
            Some(at) => self.blocks[at].1.get(oid),
            None => None,
        }
    }

    /// Puts an object at a version, in the place of the one of its name or beside the others. Only a
    /// new name takes memory. Where there is none the rows stay as they were, and the object comes back.
    pub(crate) fn put_if_room(
        &mut self,
        oid: Oid,
        version: u32,
        object: Object,
    ) -> Result<(), Object>
        ensures ok { OnOk result (self.new ≡ placed name_of (oid, version, object) self.old) }
        ensures err { OnErr result (self.new ≡ self.old) }
        ensures absent { OnErr result (row_of name_of self.old oid ≡ None) }
        ensures back { IfErr result (λ back. back ≡ object) }
    {
        match put_in_block(&mut self.blocks, &mut self.near, MOST, oid, version, object) {
            Ok(()) => Ok(()),
            Err(object) => {
                make_room(self.alloc, &mut self.blocks, oid);
                put_in_block(
                    &mut self.blocks,
                    &mut self.near,
                    usize::MAX,
                    oid,
                    version,
                    object,
                )
            }
        }
    }

    /// Blocks of the same rows. Each object is copied once.
    pub(crate) fn copy(&self, alloc: Global) -> Result<Blocks, NoMemory>
        ensures rows { IfOk result (λ copy. copy ≡ self.now) }
    {
        Ok(Blocks {
            alloc,
            blocks: copied(alloc, self.blocks.as_slice())?,
            near: 0,
        })
    }

    /// The rows, in the order of names. No object is copied.
    pub(crate) fn into_rows(self, alloc: Global) -> Result<Vec<(Oid, u32, Object)>, NoMemory>
        ensures { IfOk result (λ rows. rows.items ≡ self) }
    {
        let Blocks {
            alloc: _,
            blocks,
            near: _,
        } = self;
        joined(alloc, blocks)
    }
}

/// Where the block stands in which a name goes. `None` where all are behind the name.
fn block_of(blocks: &[(Oid, RowList)], oid: Oid) -> Option<usize>
    requires { InBlocks blocks.now }
    ensures { MatchOption result (AreBehind oid blocks.now) (λ at. IsBlockAt oid blocks.now at) }
{
    let last = blocks.len().checked_sub(1)?;
    // A new name mostly goes behind all others.
    if is_up_to(blocks[last].0, oid) {
        return Some(last);
    }
    match blocks.binary_search_by_key(&oid, |block| block.0) {
        Ok(at) => Some(at),
        Err(at) => at.checked_sub(1),
    }
}

/// The same, where the block at a place that is no more than a guess is asked first.
fn block_near(blocks: &[(Oid, RowList)], near: usize, oid: Oid) -> Option<usize>
    requires { InBlocks blocks.now }
    ensures { MatchOption result (AreBehind oid blocks.now) (λ at. IsBlockAt oid blocks.now at) }
{
    if is_between(blocks, near, oid) {
        return Some(near);
    }
    block_of(blocks, oid)
}

/// Whether a name goes in the block at this place, in front of another block.
fn is_between(blocks: &[(Oid, RowList)], at: usize, oid: Oid) -> bool
    requires { InBlocks blocks.now }
    ensures { IsTrue result → IsBlockAt oid blocks.now at }
{
    let Some(last) = blocks.len().checked_sub(1) else {
        return false;
    };
    if last <= at {
        return false;
    }
    if !is_up_to(blocks[at].0, oid) {
        return false;
    }
    !is_up_to(blocks[at + 1].0, oid)
}

/// Whether a key is this name, or before it.
fn is_up_to(key: Oid, oid: Oid) -> bool
    ensures { result ≡ not (is_before oid key) }
{
    match key.cmp(&oid) {
        Ordering::Less | Ordering::Equal => true,
        Ordering::Greater => false,
    }
}

/// Puts an object into the block of its name, which is looked for near the last one. A new name is refused where the block has so many rows,
/// and where there is no memory or no block: then the object comes back.
fn put_in_block(
    blocks: &mut Vec<(Oid, RowList)>,
    near: &mut usize,
    most: usize,
    oid: Oid,
    version: u32,
    object: Object,
) -> Result<(), Object>
    requires { InBlocks blocks.old.items }
    ensures ok { OnOk result (rows_in blocks.new.items ≡ placed name_of (oid, version, object) (rows_in blocks.old.items)) }
    ensures err { OnErr result (rows_in blocks.new.items ≡ rows_in blocks.old.items) }
    ensures in_order { InBlocks blocks.new.items }
    ensures absent { OnErr result (row_of name_of (rows_in blocks.old.items) oid ≡ None) }
    ensures back { IfErr result (λ back. back ≡ object) }
{
    match block_near(blocks.as_slice(), *near, oid) {
        Some(at) => {
            *near = at;
            blocks[at].1.put_few(most, oid, version, object)
        }
        None => Err(object),
    }
}

/// Makes room for a new name where its block is full: the block is cut, in time that grows with it and with the
/// number of blocks behind it. Where there is no block at or before the name, an empty one is made under the
/// least name. Without memory nothing changes.
fn make_room(alloc: Global, blocks: &mut Vec<(Oid, RowList)>, oid: Oid)
    requires { InBlocks blocks.old.items }
    ensures rows { rows_in blocks.new.items ≡ rows_in blocks.old.items }
    ensures in_order { InBlocks blocks.new.items }
{
    match block_of(blocks.as_slice(), oid) {
        Some(at) => split(blocks, at, oid),
        None => open(alloc, blocks, oid),
    }
}

/// An empty block under the least name, in front of all. Without memory nothing changes.
fn open(alloc: Global, blocks: &mut Vec<(Oid, RowList)>, oid: Oid)
    requires in_order { InBlocks blocks.old.items }
    requires behind { AreBehind oid blocks.old.items }
    ensures rows { rows_in blocks.new.items ≡ rows_in blocks.old.items }
    ensures in_order { InBlocks blocks.new.items }
{
    let least = Oid {
        store: 0,
        class: 0,
        worker: 0,
        boot: 0,
        number: 0,
        site: 0,
        index: 0,
    };
    let _ = blocks.insert(0, (least, RowList::new(alloc)));
}

/// The upper rows of a block, from the place of a new name on, move to a block of their own. Without
/// memory nothing changes.
fn split(blocks: &mut Vec<(Oid, RowList)>, at: usize, oid: Oid)
    requires in_order { InBlocks blocks.old.items }
    requires in_range { at < length blocks.old.items }
    ensures rows { rows_in blocks.new.items ≡ rows_in blocks.old.items }
    ensures in_order { InBlocks blocks.new.items }
{
    let Some((middle, upper)) = blocks[at].1.cut(oid) else {
        return;
    };
    if let Err(refused) = blocks.insert(at + 1, (middle, upper)) {
        let (_, upper) = refused.value;
        blocks[at].1.join(upper);
    }
}

/// The same blocks. Each object is copied once.
fn copied(alloc: Global, blocks: &[(Oid, RowList)]) -> Result<Vec<(Oid, RowList)>, NoMemory>
    requires { InBlocks blocks.now }
    ensures rows { IfOk result (λ copy. rows_in copy.items ≡ rows_in blocks.now) }
    ensures in_order { IfOk result (λ copy. InBlocks copy.items) }
{
    let mut copy = Vec::with_capacity(alloc, blocks.len())?;
    let mut rest = blocks;
    'copies: while let Some((block, after)) = rest.split_first() {
        copy.push((block.0, block.1.copy(alloc)?))?;
        rest = after;
    }
    Ok(copy)
}

/// The rows of blocks, one behind the other. No object is copied.
fn joined(alloc: Global, blocks: Vec<(Oid, RowList)>) -> Result<Vec<(Oid, u32, Object)>, NoMemory>
    ensures { IfOk result (λ rows. rows.items ≡ rows_in blocks.items) }
{
    let mut rows = Vec::new(alloc);
    for (_, block) in blocks {
        let mut more = block.into_vec();
        rows.append(&mut more)?;
    }
    Ok(rows)
}
