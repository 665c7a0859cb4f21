//! Names of objects and of transactions, values and objects, after Fabric.

ghost use Rattle.std.specs.Prelude.{◌≡◌, ◌↔◌, IfOk, IsTrue};
ghost use Rattle.fab_base.specs.Values.{referred, IsNumberOf, is_number_of};

use crate::seq::{NoMemory, Seq};
use std::alloc::Global;

/// The name of an object: its store, its class, and what made it. `worker`, `boot` and `number`
/// name the transaction, `site` the place in the program, and `index` counts the objects of that
/// site in that transaction. A root has worker 65535, boot 0, its root number, site 65535 and
/// index 0. The fields stand in the order in which names are compared and spelled.
#[derive(Clone, Copy, Debug, PartialEq, Eq, PartialOrd, Ord, Hash)]
pub struct Oid {
    pub store: u16,
    pub class: u16,
    pub worker: u16,
    pub boot: u32,
    pub number: u32,
    pub site: u16,
    pub index: u16,
}

/// The name of an attempt at a transaction: its worker, that worker's boot, from 1, and the
/// attempt's number in this boot, from 1.
#[derive(Clone, Copy, Debug, PartialEq, Eq, PartialOrd, Ord)]
pub struct Tid {
    pub worker: u16,
    pub boot: u32,
    pub number: u32,
}

/// How wide a number is: 32 bits, with a sign.
#[derive(Clone, Copy, Debug, PartialEq, Eq)]
pub enum Width {
    Int,
}

/// What a field, a local or a result holds.
#[derive(Clone, Copy, Debug, PartialEq, Eq)]
pub enum Value {
    Int(i32),
    Null,
    Ref(Oid),
}

impl Value {
    /// The object that a value leads to. Neither a number nor null leads to one.
    pub fn referred(self) -> Option<Oid>
        ensures { result ≡ referred self }
    {
        match self {
            Value::Ref(oid) => Some(oid),
            _ => None,
        }
    }

    /// Whether it is a number of this width.
    pub fn is_number_of(self, width: Width) -> bool
        ensures exact { IsTrue result ↔ IsNumberOf width self }
        ensures computed { result ≡ is_number_of width self }
    {
        match (width, self) {
            (Width::Int, Value::Int(_)) => true,
            (Width::Int, Value::Null | Value::Ref(_)) => false,
        }
    }
}

/// An object: the number of its class, and its fields in the class's order.
#[derive(Debug)]
pub struct Object {
    pub class: u16,
    pub fields: Seq<Value>,
}

impl Drop for Object {
    fn drop(self) {
        let Object { class, fields } = self;
    }
}

impl Object {
    /// An equal object.
    pub fn copy(&self, alloc: Global) -> Result<Object, NoMemory>
        ensures { IfOk result (λ object. object ≡ self.now) }
    {
        Ok(Object {
            class: self.class,
            fields: Seq::from_slice(alloc, self.fields.as_slice())?,
        })
    }

    /// The fields, without taking memory.
    pub fn into_fields(self) -> Seq<Value>
        ensures { result ≡ self.fields }
    {
        let Object { class: _, fields } = self;
        fields
    }
}

/// At which limit an evaluation was stopped: 1,000,000 of fuel, 64 calls deep, 1,024 objects
/// touched, 256 objects written or made.
#[derive(Clone, Copy, Debug, PartialEq, Eq)]
pub enum Stop {
    Fuel,
    Depth,
    Reads,
    Writes,
}
