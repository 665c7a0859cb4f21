//! What a record changes: objects, prepared transactions and what is remembered of senders.

ghost use Rattle.std.specs.Prelude.{◌≡◌, ◌≤◌, ◌+◌, length, map};
ghost use Rattle.std.specs.List.{AllByRecursion};
ghost use Rattle.fab_base.specs.FieldSpelling.{KeepsItems};
ghost use Rattle.fab_protocol.specs.Tables.{placed_all};
ghost use Rattle.fab_protocol.specs.Versions.{begun, left_by, name_of, raised};
ghost use Rattle.fab_protocol.specs.Stores.{behind, keeps, prepared_as, without};
ghost use Rattle.fab_store.specs.Stock.{HasSpare, IsNew, shelf_in};

use crate::senders::{set_boot, set_last};
use fab_base::{Entry, Items, Object, Oid, Seq, Tid};
use fab_locks::Locks;
use fab_protocol::Sender;
use fab_versions::{Table, next_version};

/// Writes take the place of their objects, each at the version behind the one that was read.
fn put_writes(table: &mut Table, writes: Seq<(Oid, u32, Object)>)
    requires room { length writes ≤ table.old.spare }
    ensures rows { table.new.rows ≡ placed_all name_of (map raised writes) table.old.rows }
    ensures spare { table.old.spare ≤ table.new.spare + length writes }
{
    let mut rest = writes.into_vec();
    rest.reverse();
    while let Some((oid, version, object)) = rest.pop() {
        let _ = table.put(oid, next_version(version), object);
    }
}

/// Objects that were made are put at version 1.
fn put_creates(table: &mut Table, creates: Seq<(Oid, Object)>)
    requires room { length creates ≤ table.old.spare }
    ensures rows { table.new.rows ≡ placed_all name_of (map begun creates) table.old.rows }
{
    let mut rest = creates.into_vec();
    rest.reverse();
    while let Some((oid, object)) = rest.pop() {
        let _ = table.put(oid, 1, object);
    }
}

/// What these items leave behind is put into the table.
fn put_left(table: &mut Table, items: Items)
    requires room { 512 ≤ table.old.spare }
    requires counts { KeepsItems items }
    ensures rows { table.new.rows ≡ placed_all name_of (left_by items) table.old.rows }
{
    let Items {
        writes,
        creates,
        ..
    } = items;
    put_writes(table, writes);
    put_creates(table, creates);
}

/// A prepared transaction is applied, and its items are free.
fn apply(table: &mut Table, locks: &mut Locks, tid: Tid)
    requires room { 512 ≤ table.old.spare }
    requires counts { AllByRecursion (λ p. KeepsItems p.1) locks.old.held }
    ensures rows { table.new.rows ≡ behind (prepared_as tid locks.old.held) table.old.rows }
    ensures held { locks.new.held ≡ without tid locks.old.held }
{
    if let Some(items) = locks.free(tid) {
        put_left(table, items);
    }
}

/// What a record says is kept, where there is the room that it needs. It wants no memory.
pub fn keep_record(table: &mut Table, locks: &mut Locks, senders: &mut Vec<Sender>, entry: Entry)
    requires new { IsNew entry locks.old.held }
    requires room { HasSpare entry table.old.spare locks.old.spare }
    requires counts { AllByRecursion (λ p. KeepsItems p.1) locks.old.held }
    ensures shelf { shelf_in table.new.rows locks.new.held senders.new.items ≡ keeps entry (shelf_in table.old.rows locks.old.held senders.old.items) }
{
    match entry {
        Entry::Prepared { tid, items } => {
            let _ = locks.hold(tid, items);
            set_last(senders, tid);
        }
        Entry::Refused { tid } => set_last(senders, tid),
        Entry::Applied { tid } => apply(table, locks, tid),
        Entry::Released { tid } => {
            let _ = locks.free(tid);
        }
        Entry::BootSeen { worker, boot } => {
            locks.free_all(worker);
            set_boot(senders, worker, boot);
        }
        _ => {}
    }
}
