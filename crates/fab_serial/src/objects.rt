//! Objects that are put into a map where they are asked for.
ghost use Rattle.std.specs.Prelude.{◌≡◌, ℕ, Bool, not, if◌then◌else◌, IfOk, OnOk, filter};
ghost use Rattle.std.specs.List.{list_all};
ghost use Rattle.fab_base.specs.FlatMap.{put, put_all};
ghost use Rattle.fab_language.specs.Evaluation.{rows_of, map_at_start};
ghost use Rattle.fab_protocol.specs.Versions.{objects_of};
ghost use Rattle.fab_rights.specs.Computed.{has_bit};
ghost use Rattle.fab_world.specs.Serial.{outside, within};

use fab_base::{NoMemory, Object, Oid, Seq};
use fab_map::ObjectMap;
use fab_rights::is_in;
use fab_tree::resolved::{Resolved, Root};
use std::alloc::Global;

/// Puts a copy of an object, where it is wanted.
fn put_if(
    alloc: Global,
    map: &mut ObjectMap,
    oid: Oid,
    object: &Object,
    wanted: bool,
) -> Result<(), NoMemory>
    ensures { OnOk result (map.new ≡ (if wanted then put oid object.now map.old else map.old)) }
{
    if wanted {
        map.put(oid, object.copy(alloc)?)?;
    }
    Ok(())
}

/// The objects that are there from the start, of these classes.
pub fn at_start(alloc: Global, start: &Resolved, classes: u64) -> Result<ObjectMap, NoMemory>
    ensures exact { IfOk result (λ m. m ≡ within (has_bit classes) (map_at_start start.now)) }
{
    let mut all = ObjectMap::new(alloc);
    put_roots(alloc, &mut all, start.roots.as_slice())?;
    let mut map = ObjectMap::new(alloc);
    put_within(alloc, &mut map, all.rows(), classes)?;
    Ok(map)
}

/// Puts the objects of roots.
fn put_roots(alloc: Global, map: &mut ObjectMap, roots: &[Root]) -> Result<(), NoMemory>
    ensures { OnOk result (map.new ≡ put_all (rows_of roots.now) map.old) }
{
    let mut rest = roots;
    while let Some((root, after)) = rest.split_first() {
        let object = Object {
            class: root.oid.class,
            fields: Seq::from_slice(alloc, root.values.as_slice())?,
        };
        map.put(root.oid, object)?;
        rest = after;
    }
    Ok(())
}

/// Puts copies of the objects of these classes.
pub fn put_within(
    alloc: Global,
    map: &mut ObjectMap,
    rows: &[(Oid, Object)],
    classes: u64,
) -> Result<(), NoMemory>
    ensures exact { OnOk result (map.new ≡ put_all (within (has_bit classes) rows.now) map.old) }
{
    let mut rest = rows;
    while let Some((row, after)) = rest.split_first() {
        put_if(alloc, map, row.0, &row.1, is_in(classes, row.0.class))?;
        rest = after;
    }
    Ok(())
}

/// A copy of a map, and over it the answers of other classes.
pub fn beside(
    alloc: Global,
    map: &ObjectMap,
    answers: &[(Oid, u32, Object)],
    classes: u64,
) -> Result<ObjectMap, NoMemory>
    ensures { IfOk result (λ m. m ≡ put_all (outside (has_bit classes) (objects_of answers.now)) map.now) }
{
    let mut copy = ObjectMap::from_rows(copies(alloc, map.rows())?);
    let mut rest = answers;
    while let Some((row, after)) = rest.split_first() {
        put_if(
            alloc,
            &mut copy,
            row.0,
            &row.2,
            !is_in(classes, row.0.class),
        )?;
        rest = after;
    }
    Ok(copy)
}

/// The same rows again.
fn copies(alloc: Global, rows: &[(Oid, Object)]) -> Result<Vec<(Oid, Object)>, NoMemory>
    ensures { IfOk result (λ copies. copies.items ≡ rows.now) }
{
    let mut copies = Vec::new(alloc);
    for row in rows {
        copies.push((row.0, row.1.copy(alloc)?))?;
    }
    Ok(copies)
}

/// Whether the objects of these answers are all of these classes.
pub fn are_within(answers: &[(Oid, u32, Object)], classes: u64) -> bool
    ensures { result ≡ list_all (λ row. has_bit classes row.0.class) answers.now }
{
    answers.iter().all(|row| is_in(classes, row.0.class))
}
