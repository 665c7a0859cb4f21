//! What is left to do, and what is put behind it.
use fab_base::{Seq, Value};
use fab_tree::resolved::{Method, Statement};

/// What is left to do when what stands behind it is done: the rest of a block; the end of a block
/// that is tried, with the locals to which a failure goes back and the block that it runs then (the
/// heap to which it goes back is saved in the state); or the end of a call.
#[derive(Drop)]
pub enum Entry<'a> {
    Rest {
        method: &'a Method,
        statements: &'a [Statement],
        depth: u32,
    },
    Tried {
        method: &'a Method,
        locals: Vec<Value>,
        otherwise: &'a [Statement],
        depth: u32,
    },
    Returning {
        callee: &'a Method,
        depth: u32,
        caller: &'a Method,
        caller_depth: u32,
        locals: Vec<Value>,
        target: Option<u16>,
    },
}

/// What a statement leads into: nothing more, a block, a block and the statement again, a block that
/// is tried before another, or a call of a method of a number, with what it is given and the local
/// that takes what it gives.
#[derive(Drop)]
pub enum Lead<'a> {
    Passed,
    Into(&'a [Statement]),
    Again(&'a [Statement]),
    Try(&'a [Statement], &'a [Statement]),
    Enter(u16, Seq<Value>, Option<u16>),
}

/// What a call comes to: a method runs over these locals, it is skipped and gives a value, or there
/// is none. Only one that is skipped doesn't ask whether a call more may be open.
#[derive(Drop)]
pub enum Call<'a> {
    Runs(&'a Method, Vec<Value>),
    Skipped(Option<Value>),
    Absent,
}

/// The rest of a block of a method in hand: it is done before what stands on the stack.
#[derive(Clone, Copy)]
pub(crate) struct Hand<'a> {
    pub(crate) method: &'a Method,
    pub(crate) statements: &'a [Statement],
    pub(crate) depth: u32,
}
