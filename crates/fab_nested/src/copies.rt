//! Copies of objects, by name.
ghost use Rattle.std.specs.Prelude.{◌≡◌, ◌++◌, IfOk, OnOk};
ghost use Rattle.fab_base.specs.FlatMap.{get, put_all};
ghost use Rattle.fab_nested.specs.Effects.{object_at, objects_at};

use fab_base::{NoMemory, Object, Oid, Seq};
use fab_map::ObjectMap;
use std::alloc::Global;

/// A copy of a map with its objects.
pub(crate) fn map_copy(alloc: Global, map: &ObjectMap) -> Result<ObjectMap, NoMemory>
    ensures { IfOk result (λ m. m ≡ map.now) }
{
    let rows = rows_copy(alloc, map.rows())?;
    Ok(ObjectMap::from_rows(rows))
}

/// Copies of rows.
fn rows_copy(alloc: Global, rows: &[(Oid, Object)]) -> Result<Vec<(Oid, Object)>, NoMemory>
    ensures { IfOk result (λ v. v.items ≡ rows.now) }
{
    let mut copies = Vec::new(alloc);
    for row in rows {
        copies.push((row.0, row.1.copy(alloc)?))?;
    }
    Ok(copies)
}

/// Puts copies of rows into a map.
#[tactic(auto, using(crate::proofs::Rows::put_taken))]
pub(crate) fn put_rows(
    alloc: Global,
    map: &mut ObjectMap,
    rows: &[(Oid, Object)],
) -> Result<(), NoMemory>
    ensures { OnOk result (map.new ≡ put_all rows.now map.old) }
{
    for row in rows {
        map.put(row.0, row.1.copy(alloc)?)?;
    }
    Ok(())
}

/// A copy of the object of this name, if it is there, behind those so far.
fn put_found(
    alloc: Global,
    out: &mut Seq<(Oid, Object)>,
    map: &ObjectMap,
    oid: Oid,
) -> Result<(), NoMemory>
    ensures { OnOk result (out.new ≡ out.old ++ object_at oid (get map.now oid)) }
{
    match map.get(oid) {
        Some(object) => out.push((oid, object.copy(alloc)?)),
        None => Ok(()),
    }
}

/// Those of these names.
pub(crate) fn put_all_found(
    alloc: Global,
    out: &mut Seq<(Oid, Object)>,
    map: &ObjectMap,
    names: &[Oid],
) -> Result<(), NoMemory>
    ensures { OnOk result (out.new ≡ out.old ++ objects_at map.now names.now) }
{
    for name in names {
        put_found(alloc, out, map, *name)?;
    }
    Ok(())
}
