//! The objects that a run wrote or made.
ghost use Rattle.std.specs.Prelude.{◌≡◌, [], true, false, None, Some, IfOk, OnErr};
ghost use Rattle.fab_base.specs.FlatMap.{ascends, get};
ghost use Rattle.fab_base.specs.declared.object.Object.{Object as AnyObject};
ghost use Rattle.fab_language.specs.Heaps.{created, is_among, is_changed, is_spent, replaced};
ghost use Rattle.fab_language.specs.Meaning.{unchanged, with_field};
ghost use Rattle.fab_nested.specs.Logs.{before, heap_of, making, put_again, Steps};

use crate::log::Change;
use crate::names::Names;
use fab_base::{NoMemory, Object, Oid, Value};
use fab_map::ObjectMap;
use std::alloc::Global;

const MAX_CHANGED: usize = 256;

/// The objects that were written or made, by name, and these names, both in order.
#[derive(Drop)]
pub(crate) struct Objects {
    pub(crate) changed: ObjectMap,
    pub(crate) written: Names<Oid>,
    pub(crate) made: Names<Oid>,
}

impl Objects {
    /// No objects.
    pub(crate) fn none(alloc: Global) -> Objects
        ensures { heap_of result ≡ unchanged [] }
    {
        Objects {
            changed: ObjectMap::new(alloc),
            written: Names::new(alloc),
            made: Names::new(alloc),
        }
    }

    /// Whether one change more would be one too many.
    fn is_spent(&self) -> bool
        ensures { result ≡ is_spent (heap_of self.now) }
    {
        self.written.len() + self.made.len() >= MAX_CHANGED
    }

    /// Writes a field of an object that was changed before.
    pub(crate) fn write_field(&mut self, oid: Oid, field: u16, value: Value) -> Change
        requires ascending { ascends self.old.changed ≡ true }
        requires changed { is_changed oid (heap_of self.old) ≡ true }
        ensures { (x : AnyObject) → get self.old.changed oid ≡ Some x → Steps (replaced oid (with_field field value x) (heap_of self.old)) (heap_of self.old) (heap_of self.new) (Some result) }
    {
        let old = self.changed.set_field(oid, field, value);
        Change::Wrote {
            oid,
            field,
            old: old.unwrap_or(Value::Null),
        }
    }

    /// Takes in an object that is written for the first time, unless it would be one change too many.
    pub(crate) fn join(&mut self, oid: Oid, object: Object) -> Result<Option<Change>, NoMemory>
        requires absent { get self.old.changed oid ≡ None }
        requires apart { is_changed oid (heap_of self.old) ≡ false }
        ensures ok { IfOk result (Steps (replaced oid object (heap_of self.old)) (heap_of self.old) (heap_of self.new)) }
        ensures err { OnErr result (heap_of self.new ≡ heap_of self.old) }
    {
        if self.is_spent() {
            return Ok(None);
        }
        self.written.push(oid)?;
        match self.changed.put(oid, object) {
            Ok(()) => Ok(Some(Change::Joined { oid })),
            Err(failed) => {
                self.written.pop();
                Err(failed)
            }
        }
    }

    /// What undoes that an object of this name is made.
    fn making(&self, alloc: Global, oid: Oid) -> Result<Change, NoMemory>
        ensures { IfOk result (λ change. change ≡ making oid (get self.now.changed oid)) }
    {
        match self.changed.get(oid) {
            Some(object) => Ok(Change::Remade {
                oid,
                old: object.copy(alloc)?,
            }),
            None => Ok(Change::Made { oid }),
        }
    }

    /// Makes an object of a name that none was made of, unless it would be one change too many. One of
    /// this name that was written makes room for it.
    pub(crate) fn make(
        &mut self,
        alloc: Global,
        oid: Oid,
        object: Object,
    ) -> Result<Option<Change>, NoMemory>
        requires ascending { ascends self.old.changed ≡ true }
        requires unmade { is_among oid (heap_of self.old).made ≡ false }
        ensures ok { IfOk result (Steps (created oid object (heap_of self.old)) (heap_of self.old) (heap_of self.new)) }
        ensures err { OnErr result (heap_of self.new ≡ heap_of self.old) }
    {
        if self.is_spent() {
            return Ok(None);
        }
        let change = self.making(alloc, oid)?;
        self.made.push(oid)?;
        match self.changed.put(oid, object) {
            Ok(()) => Ok(Some(change)),
            Err(failed) => {
                self.made.pop();
                Err(failed)
            }
        }
    }

    /// The objects, in the order of names. None is copied.
    pub(crate) fn into_rows(self) -> Vec<(Oid, Object)>
        ensures { result.items ≡ self.changed }
    {
        let Objects {
            changed,
            written: _,
            made: _,
        } = self;
        changed.into_rows()
    }

    /// Undoes a change. It takes no memory.
    pub(crate) fn undo(&mut self, change: Change)
        ensures { heap_of self.new ≡ before change (heap_of self.old) }
    {
        match change {
            Change::Wrote { oid, field, old } => {
                self.changed.set_field(oid, field, old);
            }
            Change::Joined { oid } => {
                self.changed.remove(oid);
                self.written.pop();
            }
            Change::Made { oid } => {
                self.changed.remove(oid);
                self.made.pop();
            }
            Change::Remade { oid, old } => {
                put_back(&mut self.changed, oid, old);
                self.made.pop();
            }
        }
    }
}

/// Puts an object in the place of the one of its name, if there is one. It takes no memory.
fn put_back(rows: &mut ObjectMap, oid: Oid, object: Object)
    ensures { rows.new ≡ put_again oid object rows.old }
{
    if rows.get(oid).is_some() && rows.put(oid, object).is_err() {
        unreachable!();
    }
}

/// Whether a name is among these.
pub(crate) fn is_in(names: &Names<Oid>, oid: Oid) -> bool
    ensures { result ≡ is_among oid names.now }
{
    names.contains(oid)
}
