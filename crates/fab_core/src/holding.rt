//! What the stores hold: their objects, and over them what transactions leave that are prepared and that
//! their workers have decided for.

ghost use Rattle.std.specs.Prelude.{◌≡◌, IfOk, OnOk, flat_map, map, option_map, reverse};
ghost use Rattle.std.specs.Option.{option_copied};
ghost use Rattle.fab_protocol.specs.Stores.{behind};
ghost use Rattle.fab_protocol.specs.Tables.{placed_all, row_of};
ghost use Rattle.fab_protocol.specs.Versions.{begun, left_by, name_of, raised};
ghost use Rattle.fab_core.specs.Cores.{slot, world};
ghost use Rattle.fab_nodes.specs.Seen.{decided_as, decided_in, held_in, left_if_decided, only_decided, stock_of};
ghost use Rattle.fab_core.specs.Telling.{held_here};
ghost use Rattle.fab_nodes.specs.Under.{last_under, under};

use crate::core_state::Core;
use fab_base::{Items, NoMemory, Object, Oid, Seq, Tid};
use fab_device::Journal;
use fab_locks::Held;
use fab_node::{Node, Role};
use fab_nodes::node_at;
use fab_store::Store;
use fab_versions::{Table, next_version};
use std::alloc::Global;

/// Whether this is a worker that decided for this attempt's commit.
fn has_decided(role: &Role, tid: Tid) -> bool
    ensures { result ≡ decided_as role.now tid }
{
    match role {
        Role::Worker(worker) => worker.has_decided(tid),
        Role::Store(_) => false,
    }
}

/// Whether the worker of an attempt decided for its commit.
fn is_decided<J: Journal>(nodes: &[Option<Node<J>>], tid: Tid) -> bool
    ensures { result ≡ decided_in nodes.now tid }
{
    match node_at(nodes, usize::from(tid.worker)) {
        Some(node) => has_decided(node.role(), tid),
        None => false,
    }
}

/// The honest store of this number.
fn store_at<J: Journal>(nodes: &[Option<Node<J>>], number: usize) -> Option<&Store>
    ensures { option_copied result ≡ stock_of (slot nodes.now number) }
{
    match node_at(nodes, number)?.role() {
        Role::Store(store) => Some(store),
        Role::Worker(_) => None,
    }
}

// ---- all that a store holds

/// Copies of writes are put into a table, each at the version behind the one that was read.
fn put_writes(
    alloc: Global,
    table: &mut Table,
    writes: &[(Oid, u32, Object)],
) -> Result<(), NoMemory>
    ensures { OnOk result (table.new.rows ≡ placed_all name_of (map raised writes.now) table.old.rows) }
{
    let mut rest = writes;
    'writes: while let Some((write, after)) = rest.split_first() {
        table.put(write.0, next_version(write.1), write.2.copy(alloc)?)?;
        rest = after;
    }
    Ok(())
}

/// Copies of made objects are put into a table, at version 1.
fn put_creates(alloc: Global, table: &mut Table, creates: &[(Oid, Object)]) -> Result<(), NoMemory>
    ensures { OnOk result (table.new.rows ≡ placed_all name_of (map begun creates.now) table.old.rows) }
{
    let mut rest = creates;
    'creates: while let Some((create, after)) = rest.split_first() {
        table.put(create.0, 1, create.1.copy(alloc)?)?;
        rest = after;
    }
    Ok(())
}

/// What these items leave behind is put into a table.
fn put_left(alloc: Global, table: &mut Table, items: &Items) -> Result<(), NoMemory>
    ensures { OnOk result (table.new.rows ≡ placed_all name_of (left_by items.now) table.old.rows) }
{
    put_writes(alloc, table, items.writes.as_slice())?;
    put_creates(alloc, table, items.creates.as_slice())
}

/// What those of these transactions leave behind whose workers decided for them is put into a table.
fn put_decided<J: Journal>(
    alloc: Global,
    table: &mut Table,
    nodes: &[Option<Node<J>>],
    prepared: Held<'_>,
) -> Result<(), NoMemory>
    ensures { OnOk result (table.new.rows ≡ behind (only_decided nodes.now prepared.entry) table.old.rows) }
{
    let mut rest = prepared;
    'transactions: while let Some(transaction) = rest.next() {
        if is_decided(nodes, transaction.0) {
            put_left(alloc, table, &transaction.1)?;
        }
    }
    Ok(())
}

/// What the node of this number holds: nothing, where it is no honest store.
pub(crate) fn rows_held<J: Journal>(
    alloc: Global,
    nodes: &[Option<Node<J>>],
    number: usize,
) -> Result<Seq<(Oid, u32, Object)>, NoMemory>
    ensures { IfOk result (λ rows. rows ≡ held_in nodes.now number) }
{
    let Some(store) = store_at(nodes, number) else {
        return Ok(Seq::new(alloc));
    };
    let mut table = store.objects(alloc)?;
    put_decided(alloc, &mut table, nodes, store.prepared())?;
    table.into_rows(alloc)
}

// ---- one object

/// The last row of this name.
fn last_row(rows: &[(Oid, u32, Object)], oid: Oid) -> Option<&(Oid, u32, Object)>
    ensures { option_copied result ≡ row_of name_of (reverse rows.now) oid }
{
    rows.iter().rev().find(|row| row.0 == oid)
}

/// The last made object of this name.
fn last_made(creates: &[(Oid, Object)], oid: Oid) -> Option<&(Oid, Object)>
    ensures { option_copied result ≡ row_of (λ c. c.0) (reverse creates.now) oid }
{
    creates.iter().rev().find(|create| create.0 == oid)
}

/// What these items leave under a name, if they write or make it.
#[tactic(auto, using(crate::proofs::Placing::left_is))]
fn left_under(items: &Items, oid: Oid) -> Option<(u32, &Object)>
    ensures { option_map (λ found. (found.0, found.1.now)) result ≡ last_under (left_by items.now) oid }
{
    match last_made(items.creates.as_slice(), oid) {
        Some(create) => Some((1, &create.1)),
        None => match last_row(items.writes.as_slice(), oid) {
            Some(write) => Some((next_version(write.1), &write.2)),
            None => None,
        },
    }
}

/// What a transaction leaves under a name, if its worker decided for it.
fn decided_left<'a, J: Journal>(
    nodes: &[Option<Node<J>>],
    transaction: &'a (Tid, Items),
    oid: Oid,
) -> Option<(u32, &'a Object)>
    ensures { option_map (λ found. (found.0, found.1.now)) result ≡ left_if_decided nodes.now transaction.now oid }
{
    if is_decided(nodes, transaction.0) {
        left_under(&transaction.1, oid)
    } else {
        None
    }
}

/// What those of these transactions leave under a name whose workers decided for them.
#[tactic(auto, using(crate::proofs::Placing::decided_last))]
fn decided_under<'a, J: Journal>(
    nodes: &[Option<Node<J>>],
    prepared: Held<'a>,
    oid: Oid,
) -> Option<(u32, &'a Object)>
    ensures { option_map (λ found. (found.0, found.1.now)) result ≡ last_under (flat_map (λ p. left_by p.1) (only_decided nodes.now prepared.entry)) oid }
{
    let mut rest = prepared;
    'transactions: while let Some(last) = rest.next_back() {
        if let Some(found) = decided_left(nodes, last, oid) {
            return Some(found);
        }
    }
    None
}

/// What stands under a name in a store.
fn row_under(store: &Store, oid: Oid) -> Option<(u32, &Object)>
    ensures { option_map (λ found. (found.0, found.1.now)) result ≡ under store.now.shelf.rows oid }
{
    let (version, object) = store.get(oid)?;
    Some((version, object))
}

/// What an honest store holds under a name.
#[tactic(auto, using(crate::proofs::Placing::placed_under))]
fn held_at<J: Journal>(nodes: &[Option<Node<J>>], oid: Oid) -> Option<(u32, &Object)>
    ensures { option_map (λ found. (found.0, found.1.now)) result ≡ under (held_in nodes.now oid.store) oid }
{
    let store = store_at(nodes, usize::from(oid.store))?;
    match decided_under(nodes, store.prepared(), oid) {
        Some(found) => Some(found),
        None => row_under(store, oid),
    }
}

impl<J: Journal> Core<J> {
    /// The version and the object that its store holds under a name: what a transaction leaves there that
    /// is prepared and that its worker has decided for, else the store's current object; nothing exactly
    /// where there is none, or the name's store is no honest one. A store that is down answers, too.
    pub fn held(&self, oid: Oid) -> Option<(u32, &Object)>
        ensures { option_map (λ found. (found.0, found.1.now)) result ≡ under (held_here self.now.given (world self.now) oid.store) oid }
    {
        held_at(&self.nodes, oid)
    }
}
