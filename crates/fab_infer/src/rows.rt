//! Which labels flow to which, as masks: bit l of a mask stands for label l.
ghost use Rattle.std.specs.Prelude.{◌≡◌, ◌↔◌, ◌≤◌, ℕ, ◌<◌, IfOk, IsBitSet, IsTrue, length};
ghost use Rattle.fab_language.specs.Flows.{delegations_of};
ghost use Rattle.fab_holes.specs.Least.{Goes};
ghost use Rattle.fab_infer.specs.Masks.{IsRow, IsTable};

use fab_base::NoMemory;
use fab_labels::flows;
use fab_places::mask_of;
use fab_principals::Acts;
use fab_tree::resolved::Resolved;
use std::alloc::Global;

/// The labels that flow to one, and those to which it flows.
#[derive(Clone, Copy)]
pub(crate) struct Row {
    pub(crate) below: u64,
    pub(crate) above: u64,
}

/// Whether the one declared label flows to the other.
fn does_flow(start: &Resolved, acts: &Acts, from: u16, to: u16) -> bool
    requires of { acts.now ≡ delegations_of start.now }
    ensures { from < length start.now.labels → to < length start.now.labels → IsTrue result ↔ Goes start.now from to }
{
    let labels = start.labels.as_slice();
    match (labels.get(usize::from(from)), labels.get(usize::from(to))) {
        (Some(one), Some(other)) => flows(acts, &one.label, &other.label),
        _ => false,
    }
}

/// The declared labels that flow to this one.
fn below(start: &Resolved, acts: &Acts, k: u16) -> u64
    requires of { acts.now ≡ delegations_of start.now }
    requires few { length start.now.labels ≤ 64 }
    requires within { k < length start.now.labels }
    ensures { (l : ℕ) → IsBitSet result l ↔ ((l < length start.now.labels) × Goes start.now l k) }
{
    mask_of(start.labels.len() as u16, |l| does_flow(start, acts, l, k))
}

/// The declared labels to which this one flows.
fn above(start: &Resolved, acts: &Acts, k: u16) -> u64
    requires of { acts.now ≡ delegations_of start.now }
    requires few { length start.now.labels ≤ 64 }
    requires within { k < length start.now.labels }
    ensures { (l : ℕ) → IsBitSet result l ↔ ((l < length start.now.labels) × Goes start.now k l) }
{
    mask_of(start.labels.len() as u16, |l| does_flow(start, acts, k, l))
}

/// A row for each declared label: for each two of them it is asked once whether one flows to the other.
pub(crate) fn rows(alloc: Global, start: &Resolved, acts: &Acts) -> Result<Vec<Row>, NoMemory>
    requires of { acts.now ≡ delegations_of start.now }
    requires few { length start.now.labels ≤ 64 }
    ensures { IfOk result (λ rows. IsTable start.now rows.items) }
{
    let mut rows = Vec::new(alloc);
    for k in 0..start.labels.len() as u16 {
        rows.push(Row {
            below: below(start, acts, k),
            above: above(start, acts, k),
        })?;
    }
    Ok(rows)
}
