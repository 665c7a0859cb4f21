//! The objects that are known.
ghost use Rattle.std.specs.Prelude.{◌≡◌, OnOk, OnErr, option_map};
ghost use Rattle.fab_base.specs.FlatMap.{get, put, put_all};
ghost use Rattle.fab_language.specs.Meaning.{field_of};
ghost use Rattle.fab_nested.specs.Overlay.{rows_of};

use crate::answers::field_of;
use crate::copies::map_copy;
use fab_base::{NoMemory, Object, Oid, Value};
use fab_map::ObjectMap;
use std::alloc::Global;

/// The objects that are known, in a map of one's own or in one that is lent.
#[derive(Drop)]
pub(crate) enum Known<'a> {
    Own(ObjectMap),
    Lent(&'a ObjectMap),
}

impl<'a> Known<'a> {
    /// The map.
    pub(crate) fn map(&self) -> &ObjectMap
        ensures { result.now ≡ rows_of self.now }
    {
        match self {
            Known::Own(map) => map,
            Known::Lent(map) => *map,
        }
    }

    /// Puts an object. A map that is lent is copied before, once.
    pub(crate) fn put(&mut self, alloc: Global, oid: Oid, object: Object) -> Result<(), NoMemory>
        ensures ok { OnOk result (rows_of self.new ≡ put oid object (rows_of self.old)) }
        ensures err { OnErr result (rows_of self.new ≡ rows_of self.old) }
    {
        match self {
            Known::Own(map) => map.put(oid, object),
            Known::Lent(map) => {
                let mut own = map_copy(alloc, *map)?;
                own.put(oid, object)?;
                *self = Known::Own(own);
                Ok(())
            }
        }
    }
}

/// What a field of an object holds, if the object was changed or is known.
pub(crate) fn field_at(
    known: &ObjectMap,
    changed: &ObjectMap,
    oid: Oid,
    field: u16,
) -> Option<Value>
    ensures { result ≡ option_map (field_of field) (get (put_all changed.now known.now) oid) }
{
    // (a map's rows are in the order of names)
    let _ = changed.rows();
    if let Some(object) = changed.get(oid) {
        return Some(field_of(object, field));
    }
    Some(field_of(known.get(oid)?, field))
}
