//! Workers and stores by their numbers, and those that may read or have influenced what has a label.

ghost use Rattle.std.specs.Prelude.{◌≡◌, ℕ, ◌<◌, ◌≤◌, ◌↔◌, IsTrue, IsBitSet, length};
ghost use Rattle.fab_language.specs.Flows.{delegations_of};
ghost use Rattle.fab_labelling.specs.Readers.{IsReader, IsWriter, IsNode, is_numbered, label_at, principal_of};
ghost use Rattle.fab_labelling.specs.Placement.{IsWorker, IsStore, role_of};

use crate::masks::mask_of;
use crate::policies::all_within;
use fab_base::Policy;
use fab_principals::Acts;
use fab_rights::is_in;
use fab_tree::Role;
use fab_tree::resolved::{Principal, Resolved};

/// Whether a principal is the worker or store of this number.
fn is_numbered(principal: &Principal, number: u16) -> bool
    ensures { result ≡ is_numbered number principal.now.node }
{
    match principal.node {
        None => false,
        Some(node) => number == node,
    }
}

/// The number among the principals of the worker or store of this number; that of no principal,
/// where there is none.
pub fn principal_of(start: &Resolved, number: u16) -> usize
    ensures place { result ≡ principal_of start.now number }
    ensures within { result ≤ length start.now.nodes }
{
    let nodes = start.nodes.as_slice();
    nodes
        .iter()
        .position(|x| is_numbered(x, number))
        .unwrap_or(nodes.len())
}

/// What the worker or store of this number is.
fn role_of(start: &Resolved, number: u16) -> Option<Role>
    ensures { result ≡ role_of start.now number }
{
    match start.nodes.as_slice().get(principal_of(start, number)) {
        Some(principal) => Some(principal.role),
        None => None,
    }
}

fn is_worker(start: &Resolved, number: u16) -> bool
    ensures { IsTrue result ↔ IsWorker start.now number }
{
    matches!(role_of(start, number), Some(Role::Worker { .. }))
}

/// Whether the node of this number is a store.
pub fn is_store(start: &Resolved, number: u16) -> bool
    ensures exact { IsTrue result ↔ IsStore start.now number }
{
    matches!(role_of(start, number), Some(Role::Store { .. }))
}

/// The workers: bit n of a mask of nodes stands for node n.
pub fn workers(start: &Resolved) -> u64
    ensures { (n : ℕ) → IsBitSet result n ↔ ((n < 64) × IsWorker start.now n) }
{
    mask_of(64, |n| is_worker(start, n))
}

/// The stores.
pub fn stores(start: &Resolved) -> u64
    ensures { (n : ℕ) → IsBitSet result n ↔ ((n < 64) × IsStore start.now n) }
{
    mask_of(64, |n| is_store(start, n))
}

/// Whether the principal of the node of this number is one of these.
fn is_among(start: &Resolved, principals: u64, number: u16) -> bool
    ensures { IsTrue result ↔ IsBitSet principals (principal_of start.now number) }
{
    let place = principal_of(start, number);
    place < 64 && is_in(principals, place as u16)
}

/// The nodes whose principals are among these.
fn nodes_among(start: &Resolved, principals: u64) -> u64
    ensures { (n : ℕ) → IsBitSet result n ↔ ((n < 64) × IsBitSet principals (principal_of start.now n)) }
{
    mask_of(64, |n| is_among(start, principals, n))
}

/// The policies of confidentiality of the label of this number.
fn conf_at(start: &Resolved, label: u16) -> &[Policy]
    ensures { result.now ≡ (label_at start.now label).conf }
{
    match start.labels.as_slice().get(usize::from(label)) {
        Some(named) => named.label.conf.as_slice(),
        None => &[],
    }
}

/// Its policies of integrity.
fn integ_at(start: &Resolved, label: u16) -> &[Policy]
    ensures { result.now ≡ (label_at start.now label).integ }
{
    match start.labels.as_slice().get(usize::from(label)) {
        Some(named) => named.label.integ.as_slice(),
        None => &[],
    }
}

/// The nodes that may read what has the label of this number.
pub fn reading(start: &Resolved, acts: &Acts, label: u16) -> u64
    requires of { acts.now ≡ delegations_of start.now }
    requires few { length start.now.nodes ≤ 64 }
    ensures { (n : ℕ) → IsBitSet result n
        ↔ ((n < 64) × IsNode start.now n × IsReader acts.now (label_at start.now label) (principal_of start.now n)) }
{
    nodes_among(start, all_within(acts, conf_at(start, label)))
}

/// The nodes that may have influenced it.
pub fn influencing(start: &Resolved, acts: &Acts, label: u16) -> u64
    requires of { acts.now ≡ delegations_of start.now }
    requires few { length start.now.nodes ≤ 64 }
    ensures { (n : ℕ) → IsBitSet result n
        ↔ ((n < 64) × IsNode start.now n × IsWriter acts.now (label_at start.now label) (principal_of start.now n)) }
{
    nodes_among(start, all_within(acts, integ_at(start, label)))
}
