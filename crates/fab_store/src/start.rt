//! The roots of a store, each at version 1.

ghost use Rattle.std.specs.Prelude.{◌≡◌, ◌==◌, if◌then◌else◌, IfOk, OnOk, IsTrue};
ghost use Rattle.fab_base.specs.FlatMap.{ascends as roots_ascend};
ghost use Rattle.fab_protocol.specs.Tables.{placed};
ghost use Rattle.fab_protocol.specs.Versions.{begun, name_of};
ghost use Rattle.fab_protocol.specs.Stores.{shelf_at_start};

use fab_base::{NoMemory, Object, Oid};
use fab_versions::Table;
use std::alloc::Global;

/// Puts a root at version 1, if it is of this store.
fn put_root(
    alloc: Global,
    table: &mut Table,
    store: u16,
    root: &(Oid, Object),
) -> Result<(), NoMemory>
    ensures { OnOk result (table.new.rows ≡ (if root.now.0.store == store then placed name_of (begun root.now) table.old.rows else table.old.rows)) }
{
    if root.0.store == store {
        table.put(root.0, 1, root.1.copy(alloc)?)?;
    }
    Ok(())
}

/// The roots that are at a store, in the order of names.
pub fn table_at_start(alloc: Global, store: u16, roots: &[(Oid, Object)]) -> Result<Table, NoMemory>
    requires ascending { IsTrue (roots_ascend roots.now) }
    ensures { IfOk result (λ table. table.rows ≡ (shelf_at_start roots.now store).rows) }
{
    let mut table = Table::new(alloc);
    for root in roots {
        put_root(alloc, &mut table, store, root)?;
    }
    Ok(table)
}
