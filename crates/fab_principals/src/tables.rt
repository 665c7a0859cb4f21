//! Relations of principals as tables of sets, a row for each principal.

ghost use Rattle.std.specs.Prelude.{◌≡◌, ℕ, ◌<◌, ◌≤◌, ◌^◌, ◌||◌, ◌&&◌, length, slice_index, IfOk, All, Contains};
ghost use Rattle.fab_principals.specs.Sets.{in_set};
ghost use Rattle.fab_principals.specs.Tables.{IsTable, Reaches};

use crate::sets::{contains, only, union};
use fab_base::NoMemory;
use std::alloc::Global;

/// Each principal stands in the relation to itself alone.
fn own_rows(alloc: Global, count: u16) -> Result<Vec<u64>, NoMemory>
    requires { count ≤ 64 }
    ensures { IfOk result (λ rows. IsTable rows.items count (λ p q. p ≡ q)) }
{
    let mut rows = Vec::new(alloc);
    for p in 0..count {
        rows.push(only(p))?;
    }
    Ok(rows)
}

/// Each row with `a` in it gains these.
fn grant(rows: &mut [u64], a: u16, gained: u64)
    requires { a < 64 }
    ensures { (p q : ℕ) → p < length rows.old
        → in_set (slice_index rows.new p) q
        ≡ (in_set (slice_index rows.old p) q || (in_set (slice_index rows.old p) a && in_set gained q)) }
{
    for row in rows.iter_mut() {
        if contains(*row, a) {
            *row = union(*row, gained);
        }
    }
}

/// Who acts for whom. A pair that adds nothing costs one look.
pub fn closed_rows(alloc: Global, count: u16, pairs: &[(u16, u16)]) -> Result<Vec<u64>, NoMemory>
    requires few { count ≤ 64 }
    requires declared { All (λ d. (d.0 < count) × (d.1 < count)) pairs.now }
    ensures { IfOk result (λ rows. IsTable rows.items count (λ p q. Reaches pairs.now p q)) }
{
    let mut rows = own_rows(alloc, count)?;
    for pair in pairs {
        let (a, b) = *pair;
        if !contains(rows[a as usize], b) {
            let gained = rows[b as usize];
            grant(&mut rows, a, gained);
        }
    }
    Ok(rows)
}

/// Who was declared to act for whom.
pub fn direct_rows(alloc: Global, count: u16, pairs: &[(u16, u16)]) -> Result<Vec<u64>, NoMemory>
    requires few { count ≤ 64 }
    requires declared { All (λ d. (d.0 < count) × (d.1 < count)) pairs.now }
    ensures table { IfOk result (λ rows. IsTable rows.items count (λ p q. Contains pairs.now (p, q))) }
    ensures fits { IfOk result (λ rows. All (λ row. row < 2 ^ 64) rows.items) }
{
    let mut rows = vec![in alloc; 0; count as usize]?;
    for pair in pairs {
        let (p, q) = *pair;
        rows[p as usize] = union(rows[p as usize], only(q));
    }
    Ok(rows)
}
