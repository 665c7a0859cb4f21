//! The caches of a worker, one for each store.
ghost use Rattle.std.specs.Prelude.{◌≡◌, List, [], length, map, None, Some, MatchOption, IfOk};
ghost use Rattle.std.specs.List.{range_with_len};
ghost use Rattle.fab_protocol.specs.Caches.{cached, cached_row};
ghost use Rattle.fab_cache.specs.Caching.{AreLast, laid, renewed};

use crate::rows::{emptied, empties, lay, named_row, renewed_all};
use crate::store_cache::StoreCache;
use fab_base::{NoMemory, Object, Oid};
use std::alloc::Global;
use std::marker::Model;

/// Of each store the objects that were put last, with their versions, the oldest first, each name
/// once. Contracts see the caches, and how many objects one keeps at most.
#[derive(Debug)]
pub struct Caches {
    alloc: Global,
    k: u32,
    caches: Vec<StoreCache>,
}

impl Drop for Caches {
    fn drop(self) {
        let Caches { alloc, k, caches } = self;
    }
}

impl Model for Caches {
    ghost use Rattle.fab_cache.specs.Caching.{Caching};

    ghost Value = { Caching };

    ghost view = { λ c. record { k = c.k; caches = c.caches.items } };
}

/// Caches that are built and not yet in place. Contracts see for each store its new cache, where
/// it has one.
#[derive(Debug, Drop)]
pub struct NewCaches {
    caches: Vec<Option<StoreCache>>,
}

impl Model for NewCaches {
    ghost use Rattle.std.specs.Prelude.{List, Option};
    ghost use Rattle.fab_protocol.specs.Versions.{Rows};

    ghost Value = { List (Option Rows) };

    ghost view = { λ n. n.caches.items };
}

impl Caches {
    /// An empty cache for each store.
    pub fn make(alloc: Global, k: u32, stores: u16) -> Result<Caches, NoMemory>
        ensures { IfOk result (λ made. made ≡ record { k = k; caches = map (λ s. []) (range_with_len 0 stores) }) }
    {
        Ok(Caches {
            alloc,
            k,
            caches: empties(alloc, stores)?,
        })
    }

    /// The version and the object of this name, where the cache of its store has it.
    pub fn peek(&self, oid: Oid) -> Option<(u32, &Object)>
        ensures { MatchOption result (cached_row self.now.caches oid ≡ None) (λ found. cached_row self.now.caches oid ≡ Some (oid, found.0, found.1.now)) }
    {
        named_row(&self.caches, oid)
    }

    /// The caches of the stores that these puts are of, as they are behind the puts in this order;
    /// the present ones stay as they are. A put of a store without a cache changes nothing.
    #[tactic(auto, using(crate::proofs::Laying::laid_renewed, crate::proofs::Laying::renewed_as_many))]
    pub fn with_puts(&self, puts: &[(Oid, u32, Object)]) -> Result<NewCaches, NoMemory>
        ensures new { IfOk result (λ new. new ≡ renewed self.now.k puts.now 0 self.now.caches) }
        ensures as_many { IfOk result (λ new. length new ≡ length self.now.caches) }
        ensures behind_puts { AreLast self.now.k self.now.caches
            → IfOk result (λ new. laid new self.now.caches ≡ cached self.now.k puts.now 0 self.now.caches) }
    {
        Ok(NewCaches {
            caches: renewed_all(self.alloc, self.k, &self.caches, puts)?,
        })
    }

    /// Puts new caches in the places of the old ones, and takes no memory.
    pub fn take_new(&mut self, new: NewCaches)
        requires { length new ≡ length self.old.caches }
        ensures { self.new ≡ record self.old { caches = laid new self.old.caches } }
    {
        let NewCaches { caches } = new;
        lay(&mut self.caches, caches);
    }

    /// Empties all caches, and takes no memory.
    pub fn clear(&mut self)
        ensures { self.new ≡ record self.old { caches = map (λ cache. []) self.old.caches } }
    {
        emptied(self.alloc, &mut self.caches);
    }
}
