//! Objects by name, in the order of names.
ghost use Rattle.std.specs.Prelude.{◌≡◌, [], true, Option, IsSome, IsOk, IfOk, IfErr, OnOk, OnErr, slice_get, slice_set};
ghost use Rattle.std.specs.Option.{option_copied};
ghost use Rattle.std.specs.List.{IsDistinct};
ghost use Rattle.std.specs.Map.{keys_of};
ghost use Rattle.fab_base.specs.FlatMap.{get, put, map_of, is_same, ascends};
ghost use Rattle.fab_map.specs.Changes.{field_in, put_field, removed, with_field};
ghost use Rattle.fab_map.specs.Places.{IsAt, IsGap};

use fab_base::{NoMemory, Object, Oid, Seq, Value};
use std::alloc::Global;
use std::marker::Model;
use std::mem;

/// Objects by name, each name once, in the order of names. Contracts see it as that list of rows.
#[derive(Debug)]
pub struct ObjectMap {
    rows: Vec<(Oid, Object)>,
}

impl Drop for ObjectMap {
    fn drop(self) {
        let ObjectMap { rows } = self;
    }
}

impl Model for ObjectMap {
    ghost use Rattle.std.specs.Prelude.{◌≡◌, true};
    ghost use Rattle.fab_base.specs.FlatMap.{FlatMap, ascends};

    ghost Value = { FlatMap };

    ghost view = { λ m. m.rows.items };

    ghost invariant = { λ m. ascends m.rows.items ≡ true };
}

impl ObjectMap {
    /// The empty map. It takes no memory.
    pub fn new(alloc: Global) -> ObjectMap
        ensures { result ≡ [] }
    {
        ObjectMap {
            rows: Vec::new(alloc),
        }
    }

    /// The map of rows in whatever order, without taking memory.
    pub fn from_rows(mut rows: Vec<(Oid, Object)>) -> ObjectMap
        requires { IsDistinct is_same (keys_of rows.items) }
        ensures { result ≡ map_of rows.items }
    {
        rows.sort_unstable_by_key(|row| row.0);
        ObjectMap { rows }
    }

    /// The object of this name.
    pub fn get(&self, oid: Oid) -> Option<&Object>
        ensures { option_copied result ≡ get self.now oid }
    {
        match place(&self.rows, oid) {
            Ok(at) => Some(&self.rows[at].1),
            Err(_) => None,
        }
    }

    /// Puts an object in the place of the one of its name, or beside the others. Only a new name
    /// takes memory.
    pub fn put(&mut self, oid: Oid, object: Object) -> Result<(), NoMemory>
        ensures ok { OnOk result (self.new ≡ put oid object self.old) }
        ensures err { OnErr result (self.new ≡ self.old) }
        ensures known { IsSome (get self.old oid) → IsOk result }
    {
        match place(&self.rows, oid) {
            Ok(at) => {
                self.rows[at] = (oid, object);
                Ok(())
            }
            Err(at) => Ok(self.rows.insert(at, (oid, object))?),
        }
    }

    /// Writes a field of an object where it stands, and gives back what was there. It takes no memory.
    pub fn set_field(&mut self, oid: Oid, field: u16, value: Value) -> Option<Value>
        ensures written { self.new ≡ put_field oid field value self.old }
        ensures before { result ≡ field_in field (get self.old oid) }
    {
        match place(&self.rows, oid) {
            Ok(at) => {
                let blank = Seq::new(*self.rows.allocator());
                let row = &mut self.rows[at];
                let fields = mem::replace(&mut row.1.fields, blank);
                let (fields, before) = with_item(fields, field as usize, value);
                row.1.fields = fields;
                before
            }
            Err(_) => None,
        }
    }

    /// Takes an object away, and gives it back. It takes no memory.
    pub fn remove(&mut self, oid: Oid) -> Option<Object>
        ensures removed { self.new ≡ removed oid self.old }
        ensures before { result ≡ get self.old oid }
    {
        match place(&self.rows, oid) {
            Ok(at) => Some(self.rows.remove(at).1),
            Err(_) => None,
        }
    }

    /// The rows, in the order of names.
    pub fn rows(&self) -> &[(Oid, Object)]
        ensures all { result.now ≡ self.now }
        ensures ascending { ascends self.now ≡ true }
    {
        self.rows.as_slice()
    }

    /// The rows, in the order of names, without taking memory.
    pub fn into_rows(self) -> Vec<(Oid, Object)>
        ensures all { result.items ≡ self }
        ensures ascending { ascends self ≡ true }
    {
        let ObjectMap { rows } = self;
        rows
    }
}

/// Where the row of this name stands, or where it would go.
fn place(rows: &[(Oid, Object)], oid: Oid) -> Result<usize, usize>
    requires { ascends rows.now ≡ true }
    ensures found { IfOk result (IsAt rows.now oid) }
    ensures absent { IfErr result (IsGap rows.now oid) }
{
    rows.binary_search_by_key(&oid, |row| row.0)
}

/// A list with another item at a place, if it is that long, and the item that was there.
fn with_item(items: Seq<Value>, at: usize, value: Value) -> (Seq<Value>, Option<Value>)
    ensures after { result.0 ≡ slice_set items at value }
    ensures before { result.1 ≡ slice_get items at }
{
    let mut items = items.into_vec();
    let before = items.get(at).copied();
    if at < items.len() {
        items[at] = value;
    }
    (Seq::from_vec(items), before)
}
