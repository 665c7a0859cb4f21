//! How a request ends.

use fab_base::{Oid, Stop, Value};

/// How a request ends over a flat map: with its method's value, if it returns one; it failed; it was
/// stopped at a limit; or an object that it accesses at a site is neither in the map nor made.
#[derive(Clone, Copy, Debug, PartialEq, Eq)]
pub enum Ending {
    Ended(Option<Value>),
    Failed,
    Stopped(Stop),
    Missing { site: u16, oid: Oid },
}
