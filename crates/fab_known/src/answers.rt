//! Objects that answer.
ghost use Rattle.std.specs.Prelude.{◌≡◌};
ghost use Rattle.fab_rights.specs.Computed.{suits};
ghost use Rattle.fab_known.specs.Answers.{is_answer};

use crate::names::{is_above, is_one_name, is_one_tid, maker_of};
use fab_base::{Object, Oid, Tid};
use fab_rights::Rights;

/// Whether an object may stand under a name.
fn suits(rights: &Rights, oid: Oid, object: &Object) -> bool
    ensures { result ≡ suits rights.now oid object.now }
{
    rights.well_formed(object) && object.class == oid.class
}

/// Whether a message of a store brings the object that a worker in this attempt waits for: it suits,
/// and no later attempt of the worker made it.
pub fn is_answer(
    rights: &Rights,
    own: Tid,
    wanted: Oid,
    sender: u16,
    tid: Tid,
    row: &(Oid, u32, Object),
) -> bool
    ensures { result ≡ is_answer rights.now own wanted sender tid row.now }
{
    is_one_tid(tid, own)
        && is_one_name(row.0, wanted)
        && row.0.store == sender
        && suits(rights, row.0, &row.2)
        && row.1 > 0
        && (row.0.worker != own.worker || is_above(own, maker_of(row.0)))
}
