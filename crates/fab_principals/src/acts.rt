ghost use Rattle.std.specs.Prelude.{◌≡◌, ◌<◌, ◌≤◌, ◌↔◌, IsTrue, IsNone, IfOk, IfSome, All};
ghost use Rattle.fab_base.specs.Principals.{ActsFor, IsBestChain};

use crate::paths::{rings, walk};
use crate::sets::contains;
use crate::tables::{closed_rows, direct_rows};
use fab_base::{NoMemory, Seq};
use std::alloc::Global;
use std::marker::Model;

/// The declared delegations of at most 64 principals, with their closure.
#[derive(Debug)]
pub struct Acts {
    count: u16,
    pairs: Seq<(u16, u16)>,
    direct: Vec<u64>,
    closed: Vec<u64>,
}

impl Drop for Acts {
    fn drop(self) {
        let Acts {
            count,
            pairs,
            direct,
            closed,
        } = self;
    }
}

impl Model for Acts {
    ghost use Rattle.fab_base.specs.Principals.{Delegations};

    ghost Value = { Delegations };

    ghost use Rattle.fab_principals.specs.Views.{delegations, HasTables};

    ghost view = { delegations };

    ghost invariant = { HasTables };
}

impl Acts {
    /// The closure of declared delegations: the pair (p, q) says that p acts for q.
    pub fn close(alloc: Global, n: u16, pairs: &[(u16, u16)]) -> Result<Acts, NoMemory>
        requires few { n ≤ 64 }
        requires declared { All (λ d. (d.0 < n) × (d.1 < n)) pairs.now }
        ensures given { IfOk result (λ acts. acts ≡ record { count = n; pairs = pairs.now }) }
    {
        let direct = direct_rows(alloc, n, pairs)?;
        let closed = closed_rows(alloc, n, pairs)?;
        Ok(Acts {
            count: n,
            pairs: Seq::from_slice(alloc, pairs)?,
            direct,
            closed,
        })
    }

    /// How many principals there are.
    pub fn count(&self) -> u16
        ensures { result ≡ self.now.count }
    {
        self.count
    }

    /// Whether p acts for q. A number that is no principal acts for itself alone.
    pub fn acts(&self, p: u16, q: u16) -> bool
        ensures exact { IsTrue result ↔ ActsFor self.now p q }
    {
        if p < self.count && q < self.count {
            contains(self.closed[p as usize], q)
        } else {
            p == q
        }
    }

    /// A shortest chain of declared delegations from p to q.
    pub fn path(&self, p: u16, q: u16) -> Result<Option<Seq<u16>>, NoMemory>
        requires p_below { p < self.now.count }
        requires q_below { q < self.now.count }
        ensures some { IfOk result (λ found. IfSome found (IsBestChain self.now p q)) }
        ensures none { IfOk result (λ found. IsNone found ↔ ¬ ActsFor self.now p q) }
    {
        let alloc = *self.direct.allocator();
        let rows = self.direct.as_slice();
        match rings(alloc, rows, p, q)? {
            None => Ok(None),
            Some(rings) => {
                let chain = walk(alloc, rows, rings.as_slice(), p, q)?;
                Ok(Some(Seq::from_vec(chain)))
            }
        }
    }
}
