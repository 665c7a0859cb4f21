//! What is to be read.

use fab_base::Oid;

/// Somebody reads the object of this name beside a run, so many times, and behind the run once more. What is seen are objects of these
/// classes alone, as a mask: those that the hostile nodes can't have influenced.
#[derive(Clone, Copy, Debug)]
pub struct Reading {
    pub oid: Oid,
    pub classes: u64,
    pub times: u32,
}
