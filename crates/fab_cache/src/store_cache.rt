//! The cache of one store.
ghost use Rattle.std.specs.Prelude.{◌≡◌, ◌==◌, ◌||◌, ◌++◌, nat_le, not, length, [], None, Some, MatchOption, IfOk, OnOk};
ghost use Rattle.fab_base.specs.FlatMap.{is_among};
ghost use Rattle.fab_protocol.specs.Caches.{at_store, last_distinct, with_older};
ghost use Rattle.fab_protocol.specs.Tables.{OnlyOnce, row_of};
ghost use Rattle.fab_protocol.specs.Versions.{name_of, names_of};
ghost use Rattle.fab_cache.specs.Caching.{lasting, rows_in};

use fab_base::{NoMemory, Object, Oid};
use indexmap::IndexMap;
use std::alloc::Global;
use std::marker::Model;

/// The objects of one store that were put last, with their versions, each name once. Contracts see
/// them in a list, the oldest first; the map has the newest first, so that a new cache is made by
/// insertions alone.
#[derive(Debug)]
pub struct StoreCache {
    entries: IndexMap<Oid, (u32, Object)>,
}

impl Drop for StoreCache {
    fn drop(self) {
        let StoreCache { entries } = self;
    }
}

impl Model for StoreCache {
    ghost use Rattle.fab_protocol.specs.Tables.{OnlyOnce};
    ghost use Rattle.fab_protocol.specs.Versions.{Rows, names_of};
    ghost use Rattle.fab_cache.specs.Caching.{rows_in};

    ghost Value = { Rows };

    ghost view = { λ c. rows_in c.entries.entries };

    ghost invariant = { λ c. OnlyOnce (names_of (rows_in c.entries.entries)) };
}

impl StoreCache {
    /// Nothing. It takes no memory.
    pub fn empty(alloc: Global) -> StoreCache
        ensures { result ≡ [] }
    {
        StoreCache {
            entries: IndexMap::new(alloc),
        }
    }

    /// The version and the object of this name. A look-up leaves the order as it is.
    pub fn peek(&self, oid: Oid) -> Option<(u32, &Object)>
        ensures { MatchOption result (row_of name_of self.now oid ≡ None) (λ found. row_of name_of self.now oid ≡ Some (oid, found.0, found.1.now)) }
    {
        peek_in(&self.entries, oid)
    }

    /// The cache behind those of these puts that are to the store, beside this one. Each row that
    /// stays is copied once, and each put costs the same however many rows there are.
    pub fn behind(
        &self,
        alloc: Global,
        k: u32,
        store: usize,
        puts: &[(Oid, u32, Object)],
    ) -> Result<StoreCache, NoMemory>
        ensures { IfOk result (λ new. new ≡ last_distinct k (self.now ++ at_store store puts.now)) }
    {
        let room = self.entries.len().min(k as usize);
        let mut entries = IndexMap::with_capacity(alloc, room)?;
        put_all(alloc, &mut entries, k as usize, store, puts)?;
        keep_all(alloc, &mut entries, k as usize, &self.entries)?;
        Ok(StoreCache { entries })
    }
}

/// The version and the object of this name.
fn peek_in(entries: &IndexMap<Oid, (u32, Object)>, oid: Oid) -> Option<(u32, &Object)>
    requires { OnlyOnce (names_of (rows_in entries.now.entries)) }
    ensures { MatchOption result (row_of name_of (rows_in entries.now.entries) oid ≡ None)
        (λ found. row_of name_of (rows_in entries.now.entries) oid ≡ Some (oid, found.0, found.1.now)) }
{
    match entries.get(&oid) {
        Some(row) => Some((row.0, &row.1)),
        None => None,
    }
}

/// Those of these puts that are to the store, from the last one to the first, behind what is there.
fn put_all(
    alloc: Global,
    entries: &mut IndexMap<Oid, (u32, Object)>,
    k: usize,
    store: usize,
    puts: &[(Oid, u32, Object)],
) -> Result<(), NoMemory>
    ensures { OnOk result (rows_in entries.new.entries ≡ lasting k (at_store store puts.now) (rows_in entries.old.entries)) }
{
    let mut rest = puts;
    while let Some((put, older)) = rest.split_last() {
        if is_of(put.0, store) {
            add_older(alloc, entries, k, put.0, put.1, &put.2)?;
        }
        rest = older;
    }
    Ok(())
}

/// The rows of another cache, from the newest one to the oldest, behind what is there.
fn keep_all(
    alloc: Global,
    entries: &mut IndexMap<Oid, (u32, Object)>,
    k: usize,
    old: &IndexMap<Oid, (u32, Object)>,
) -> Result<(), NoMemory>
    ensures { OnOk result (rows_in entries.new.entries ≡ lasting k (rows_in old.now.entries) (rows_in entries.old.entries)) }
{
    let mut rest = old.iter();
    while let Some((oid, row)) = rest.next() {
        add_older(alloc, entries, k, *oid, row.0, &row.1)?;
    }
    Ok(())
}

/// Whether the object is of the store.
pub fn is_of(oid: Oid, store: usize) -> bool
    ensures { result ≡ (oid.store == store) }
{
    oid.store as usize == store
}

/// A copy of an object behind the newer ones, where none of these has its name and there are fewer
/// than so many.
fn add_older(
    alloc: Global,
    entries: &mut IndexMap<Oid, (u32, Object)>,
    k: usize,
    oid: Oid,
    version: u32,
    object: &Object,
) -> Result<(), NoMemory>
    ensures { OnOk result (rows_in entries.new.entries ≡ with_older k (oid, version, object.now) (rows_in entries.old.entries)) }
{
    if !has_room(entries, k, oid) {
        return Ok(());
    }
    entries.insert(oid, (version, object.copy(alloc)?))?;
    Ok(())
}

/// Whether no row has the name, and there are fewer than so many.
#[tactic(auto, using(crate::proofs::Putting::as_many_rows))]
fn has_room(entries: &IndexMap<Oid, (u32, Object)>, k: usize, oid: Oid) -> bool
    ensures { result ≡ not (is_among oid (names_of (rows_in entries.now.entries)) || nat_le k (length (rows_in entries.now.entries))) }
{
    entries.len() < k && !has(entries, oid)
}

/// Whether a row has the name.
fn has(entries: &IndexMap<Oid, (u32, Object)>, oid: Oid) -> bool
    ensures { result ≡ is_among oid (names_of (rows_in entries.now.entries)) }
{
    entries.contains_key(&oid)
}
