//! The caches of all stores: a look-up, and what puts leave of them.
ghost use Rattle.std.specs.Prelude.{◌≡◌, ◌==◌, [], length, map, None, Some, MatchOption, IfOk};
ghost use Rattle.std.specs.List.{list_any, range_with_len};
ghost use Rattle.fab_protocol.specs.Caches.{at_store, cached_row};
ghost use Rattle.fab_cache.specs.Caching.{laid, renewed, renewed_one};

use crate::store_cache::{StoreCache, is_of};
use fab_base::{NoMemory, Object, Oid};
use std::alloc::Global;

/// So many empty caches.
pub fn empties(alloc: Global, count: u16) -> Result<Vec<StoreCache>, NoMemory>
    ensures { IfOk result (λ caches. caches.items ≡ map (λ s. []) (range_with_len 0 count)) }
{
    (0..count).map(|_| StoreCache::empty(alloc)).collect(alloc)
}

/// The row of this name in the cache of its store.
pub fn named_row(caches: &[StoreCache], oid: Oid) -> Option<(u32, &Object)>
    ensures { MatchOption result (cached_row caches.now oid ≡ None) (λ found. cached_row caches.now oid ≡ Some (oid, found.0, found.1.now)) }
{
    let store = oid.store as usize;
    if store < caches.len() {
        caches[store].peek(oid)
    } else {
        None
    }
}

/// The new cache of each store that some put is of.
pub fn renewed_all(
    alloc: Global,
    k: u32,
    caches: &[StoreCache],
    puts: &[(Oid, u32, Object)],
) -> Result<Vec<Option<StoreCache>>, NoMemory>
    ensures { IfOk result (λ new. new.items ≡ renewed k puts.now 0 caches.now) }
{
    let mut new = Vec::new(alloc);
    let mut rest = caches;
    while let Some((cache, others)) = rest.split_first() {
        new.push(renewed_cache(alloc, k, new.len(), cache, puts)?)?;
        rest = others;
    }
    Ok(new)
}

/// The new cache of a store, where some put is of it.
fn renewed_cache(
    alloc: Global,
    k: u32,
    store: usize,
    cache: &StoreCache,
    puts: &[(Oid, u32, Object)],
) -> Result<Option<StoreCache>, NoMemory>
    ensures { IfOk result (λ new. new ≡ renewed_one k (at_store store puts.now) cache.now) }
{
    if !has_store(puts, store) {
        return Ok(None);
    }
    Ok(Some(cache.behind(alloc, k, store, puts)?))
}

/// Whether some put is of the store.
fn has_store(puts: &[(Oid, u32, Object)], store: usize) -> bool
    ensures { result ≡ list_any (λ row. row.0.store == store) puts.now }
{
    puts.iter().any(|row| is_of(row.0, store))
}

/// Puts new caches in the places of the old ones.
pub fn lay(caches: &mut [StoreCache], mut new: Vec<Option<StoreCache>>)
    requires { length new.items ≡ length caches.old }
    ensures { caches.new ≡ laid new.items caches.old }
{
    while let Some(one) = new.pop() {
        if let Some(cache) = one {
            caches[new.len()] = cache;
        }
    }
}

/// Empties each cache.
pub fn emptied(alloc: Global, caches: &mut [StoreCache])
    ensures { caches.new ≡ map (λ cache. []) caches.old }
{
    for cache in caches.iter_mut() {
        *cache = StoreCache::empty(alloc);
    }
}
