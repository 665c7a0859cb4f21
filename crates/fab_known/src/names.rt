//! Names of attempts and of objects.
ghost use Rattle.std.specs.Prelude.{◌≡◌};
ghost use Rattle.fab_base.specs.FlatMap.{is_same};
ghost use Rattle.fab_base.specs.Tids.{is_above};
ghost use Rattle.fab_protocol.specs.Versions.{is_tid, maker_of};

use fab_base::{Oid, Tid};

/// Whether two attempts are one.
pub fn is_one_tid(one: Tid, other: Tid) -> bool
    ensures { result ≡ is_tid one other }
{
    one == other
}

/// Whether one attempt comes behind another.
pub(crate) fn is_above(one: Tid, other: Tid) -> bool
    ensures { result ≡ is_above one other }
{
    one.boot > other.boot || (one.boot == other.boot && one.number > other.number)
}

pub(crate) fn is_one_name(one: Oid, other: Oid) -> bool
    ensures { result ≡ is_same one other }
{
    one == other
}

/// The attempt that made the object of this name.
pub(crate) fn maker_of(oid: Oid) -> Tid
    ensures { result ≡ maker_of oid }
{
    Tid {
        worker: oid.worker,
        boot: oid.boot,
        number: oid.number,
    }
}
