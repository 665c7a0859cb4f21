//! Shortest ways through a table, by rings: ring k has those who reach the goal in at most k steps.

ghost use Rattle.std.specs.Prelude.{◌≡◌, ℕ, ◌<◌, ◌≤◌, ◌↔◌, [], ◌∷◌, List, length, slice_index, IsTrue, IfOk, IfNone, IfSome};
ghost use Rattle.fab_principals.specs.Sets.{in_set, Meets};
ghost use Rattle.fab_principals.specs.Tables.{RowsLead, AreRings, inward};

use crate::sets::{contains, first_common, meets, only, union};
use fab_base::NoMemory;
use std::alloc::Global;

/// Those from whom one step leads into the set.
fn sources(rows: &[u64], set: u64) -> u64
    requires { length rows.now ≤ 64 }
    ensures { (p : ℕ) → IsTrue (in_set result p) ↔ ((p < length rows.now) × Meets (slice_index rows.now p) set) }
{
    let mut found = 0;
    for (p, row) in rows.iter().enumerate() {
        if meets(*row, set) {
            found = union(found, only(p as u16));
        }
    }
    found
}

/// The rings round q that don't have p, if p is in any.
pub fn rings(alloc: Global, rows: &[u64], p: u16, q: u16) -> Result<Option<Vec<u64>>, NoMemory>
    requires few { length rows.now ≤ 64 }
    requires p_small { p < 64 }
    requires q_small { q < 64 }
    ensures none { IfOk result (λ found. IfNone found ((rest : List ℕ) → ¬ RowsLead rows.now p rest q)) }
    ensures some { IfOk result (λ found. IfSome found (λ rings. AreRings rows.now q rings.items (length rings.items) p)) }
{
    let mut rings = Vec::new(alloc);
    let mut near = only(q);
    while !contains(near, p) {
        let wider = union(near, sources(rows, near));
        if wider == near {
            return Ok(None);
        }
        rings.push(near)?;
        near = wider;
    }
    Ok(Some(rings))
}

/// The way from p inward through the rings to q, at each step to the least number.
pub fn walk(
    alloc: Global,
    rows: &[u64],
    rings: &[u64],
    p: u16,
    q: u16,
) -> Result<Vec<u16>, NoMemory>
    requires few { length rows.now ≤ 64 }
    requires rings { AreRings rows.now q rings.now (length rings.now) p }
    ensures { IfOk result (λ chain. chain.items ≡ p ∷ inward rows.now rings.now (length rings.now) p) }
{
    let mut chain = Vec::new(alloc);
    chain.push(p)?;
    let mut at = p;
    let mut left = rings.len();
    while at != q {
        left -= 1;
        match first_common(rows[at as usize], rings[left]) {
            Some(next) => at = next,
            None => unreachable!(),
        }
        chain.push(at)?;
    }
    Ok(chain)
}
