//! Which worker may fetch and write, and which store may hold, the objects of each class.

ghost use Rattle.std.specs.Prelude.{◌≡◌, ◌↔◌, IsTrue, IfOk, option_copied, slice_get};
ghost use Rattle.std.specs.List.{AllZip};
ghost use Rattle.fab_rights.specs.Rights.{Knows, IsWorkerIn, IsStoreIn, MayFetch, MayWrite, MayHold, FitsField, IsWellFormed};
ghost use Rattle.fab_rights.specs.Computed as computed;

use crate::masks::is_in;
use fab_base::{NoMemory, Object, Seq, Value, Width};
use std::alloc::Global;

/// What a field holds: numbers of a width, or references to objects of the class of this number.
#[derive(Clone, Copy, Debug, PartialEq, Eq)]
pub enum Shape {
    Number(Width),
    Class(u16),
}

/// Who may do what with the objects of a class, and what their fields hold. Bit n of a mask stands
/// for node n.
#[derive(Debug)]
pub struct ClassRights {
    pub fetchers: u64,
    pub writers: u64,
    pub holders: u64,
    pub fields: Seq<Shape>,
}

impl Drop for ClassRights {
    fn drop(self) {
        let ClassRights {
            fetchers,
            writers,
            holders,
            fields,
        } = self;
    }
}

/// Which nodes are workers and which stores, as masks, and the rights over each class, in the order
/// of their numbers.
#[derive(Debug)]
pub struct Rights {
    pub workers: u64,
    pub stores: u64,
    pub classes: Seq<ClassRights>,
}

impl Drop for Rights {
    fn drop(self) {
        let Rights {
            workers,
            stores,
            classes,
        } = self;
    }
}

impl ClassRights {
    /// The same rights once more.
    fn copy(&self, alloc: Global) -> Result<ClassRights, NoMemory>
        ensures { IfOk result (λ copy. copy ≡ self.now) }
    {
        Ok(ClassRights {
            fetchers: self.fetchers,
            writers: self.writers,
            holders: self.holders,
            fields: Seq::from_slice(alloc, self.fields.as_slice())?,
        })
    }
}

impl Rights {
    /// The rights of these workers and stores over these classes.
    pub fn make(workers: u64, stores: u64, classes: Seq<ClassRights>) -> Rights
        ensures { result ≡ record { workers = workers; stores = stores; classes = classes } }
    {
        Rights {
            workers,
            stores,
            classes,
        }
    }

    /// The same rights once more. Only want of memory is an error.
    pub fn copy(&self, alloc: Global) -> Result<Rights, NoMemory>
        ensures { IfOk result (λ copy. copy ≡ self.now) }
    {
        let mut classes = Vec::new(alloc);
        for class in self.classes.as_slice() {
            classes.push(class.copy(alloc)?)?;
        }
        Ok(Rights {
            workers: self.workers,
            stores: self.stores,
            classes: Seq::from_vec(classes),
        })
    }

    /// The class of this number.
    fn class(&self, class: u16) -> Option<&ClassRights>
        ensures { option_copied result ≡ slice_get self.now.classes class }
    {
        self.classes.as_slice().get(usize::from(class))
    }

    /// Whether there is a class of this number.
    pub fn knows(&self, class: u16) -> bool
        ensures exact { IsTrue result ↔ Knows self.now class }
        ensures computed { result ≡ computed.knows self.now class }
    {
        usize::from(class) < self.classes.len()
    }

    /// Whether the node of this number is a worker.
    pub fn is_worker(&self, node: u16) -> bool
        ensures exact { IsTrue result ↔ IsWorkerIn self.now node }
        ensures computed { result ≡ computed.is_worker self.now node }
    {
        is_in(self.workers, node)
    }

    /// Whether the node of this number is a store.
    pub fn is_store(&self, node: u16) -> bool
        ensures exact { IsTrue result ↔ IsStoreIn self.now node }
        ensures computed { result ≡ computed.is_store self.now node }
    {
        is_in(self.stores, node)
    }

    /// Whether the worker may fetch objects of the class.
    pub fn may_fetch(&self, worker: u16, class: u16) -> bool
        ensures exact { IsTrue result ↔ MayFetch self.now worker class }
        ensures computed { result ≡ computed.may_fetch self.now worker class }
    {
        match self.class(class) {
            Some(rights) => is_in(rights.fetchers, worker),
            None => false,
        }
    }

    /// Whether the worker may write and make objects of the class.
    pub fn may_write(&self, worker: u16, class: u16) -> bool
        ensures exact { IsTrue result ↔ MayWrite self.now worker class }
        ensures computed { result ≡ computed.may_write self.now worker class }
    {
        match self.class(class) {
            Some(rights) => is_in(rights.writers, worker),
            None => false,
        }
    }

    /// Whether the store may hold objects of the class.
    pub fn may_hold(&self, store: u16, class: u16) -> bool
        ensures exact { IsTrue result ↔ MayHold self.now store class }
        ensures computed { result ≡ computed.may_hold self.now store class }
    {
        match self.class(class) {
            Some(rights) => is_in(rights.holders, store),
            None => false,
        }
    }

    /// Whether a field of this shape may hold the value.
    fn fits(&self, shape: Shape, value: Value) -> bool
        ensures exact { IsTrue result ↔ FitsField self.now shape value }
        ensures computed { result ≡ computed.fits_field self.now shape value }
    {
        match (shape, value) {
            (Shape::Number(width), _) => value.is_number_of(width),
            (Shape::Class(_), Value::Null) => true,
            (Shape::Class(class), Value::Ref(oid)) => {
                oid.class == class && self.may_hold(oid.store, class)
            }
            _ => false,
        }
    }

    /// Whether there are as many values as fields, each of its field's shape.
    fn all_fit(&self, shapes: &[Shape], values: &[Value]) -> bool
        ensures exact { IsTrue result ↔ AllZip (FitsField self.now) shapes.now values.now }
        ensures computed { result ≡ computed.fit_fields self.now shapes.now values.now }
    {
        let (mut wanted, mut given) = (shapes, values);
        while let Some((shape, other_shapes)) = wanted.split_first() {
            let Some((value, other_values)) = given.split_first() else {
                return false;
            };
            if !self.fits(*shape, *value) {
                return false;
            }
            wanted = other_shapes;
            given = other_values;
        }
        given.is_empty()
    }

    /// Whether the object is of a known class and its fields are that class's, each reference at a
    /// store that may hold what it leads to.
    pub fn well_formed(&self, object: &Object) -> bool
        ensures exact { IsTrue result ↔ IsWellFormed self.now object.now }
        ensures computed { result ≡ computed.is_well_formed self.now object.now }
    {
        match self.class(object.class) {
            Some(rights) => self.all_fit(rights.fields.as_slice(), object.fields.as_slice()),
            None => false,
        }
    }
}
