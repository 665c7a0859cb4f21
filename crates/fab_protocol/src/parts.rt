//! What a worker's attempt comes to, and what it keeps of a decision.

use fab_base::{Object, Oid, Seq, Tid, Value};

/// The parts of an attempt whose request ended: its value; what it touched, each object once, in the
/// order of first touches, with the version that was read; its writes, with the versions read; and
/// what it made, both in the order of names.
#[derive(Debug, Drop)]
pub struct Parts {
    pub value: Option<Value>,
    pub touched: Seq<(Oid, u32)>,
    pub writes: Seq<(Oid, u32, Object)>,
    pub creates: Seq<(Oid, Object)>,
}

/// A commit that a worker decided: its attempt, the request's number from 1, the stores that take part,
/// in the order of numbers, and the value.
#[derive(Debug, Drop)]
pub struct Decision {
    pub tid: Tid,
    pub request: u32,
    pub stores: Seq<u16>,
    pub value: Option<Value>,
}
