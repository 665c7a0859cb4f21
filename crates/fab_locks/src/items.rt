//! Whether the items of a transaction bar a name.
ghost use Rattle.std.specs.Prelude.{◌≡◌};
ghost use Rattle.std.specs.List.{list_any};
ghost use Rattle.fab_base.specs.FlatMap.{is_same, is_among};
ghost use Rattle.fab_protocol.specs.Stores.{changed_by, named_by};
ghost use Rattle.fab_locks.specs.Conflicts as conflicts;

use fab_base::{Items, Object, Oid};
use fab_protocol::is_same_name;

/// Whether the items bar a name: they have it, and one of the two, they or who asks, writes or
/// creates it.
pub fn bars(items: &Items, oid: Oid, writing: bool) -> bool
    ensures { result ≡ conflicts.bars oid writing items.now }
{
    if writing {
        names(items, oid)
    } else {
        changes(items, oid)
    }
}

/// Whether the items have the name.
#[tactic(auto, using(crate::proofs::Barring::named_are))]
fn names(items: &Items, oid: Oid) -> bool
    ensures { result ≡ is_among oid (named_by items.now) }
{
    is_read(items.reads.as_slice(), oid) || changes(items, oid)
}

/// Whether the items write or create the name.
#[tactic(auto, using(crate::proofs::Barring::changed_are))]
fn changes(items: &Items, oid: Oid) -> bool
    ensures { result ≡ is_among oid (changed_by items.now) }
{
    is_written(items.writes.as_slice(), oid) || is_created(items.creates.as_slice(), oid)
}

fn is_read(reads: &[(Oid, u32)], oid: Oid) -> bool
    ensures { result ≡ list_any (λ read. is_same read.0 oid) reads.now }
{
    reads.iter().any(|read| is_same_name(read.0, oid))
}

fn is_written(writes: &[(Oid, u32, Object)], oid: Oid) -> bool
    ensures { result ≡ list_any (λ write. is_same write.0 oid) writes.now }
{
    writes.iter().any(|write| is_same_name(write.0, oid))
}

fn is_created(creates: &[(Oid, Object)], oid: Oid) -> bool
    ensures { result ≡ list_any (λ create. is_same create.0 oid) creates.now }
{
    creates.iter().any(|create| is_same_name(create.0, oid))
}
