//! What a line says of an object.
ghost use Rattle.fab_wire.specs.Reading.{Gives};
ghost use Rattle.fab_reports.specs.Reading.{held_at, object_at};

use crate::line::{ShownObject, ShownValue};
use crate::scanning::{number_of, word_until};
use crate::values::{fields_of, name_of};
use fab_base::Seq;
use fab_wire::Stop;
use std::alloc::Global;

#[tactic(auto, unfolding(crate::specs::Reading::held_at))]
fn held_of(alloc: Global, bytes: &[u8]) -> Result<((u32, Seq<ShownValue>), &[u8]), Stop>
    ensures { Gives (λ x. ((x.0.0, x.0.1), x.1.now)) result (held_at bytes.now) }
{
    let ((version, end), rest) = number_of(bytes, 0, u32::MAX, b" \n")?;
    let (fields, rest) = fields_of(alloc, end, rest)?;
    Ok(((version, fields), rest))
}

/// An object that a store holds.
#[tactic(auto, unfolding(crate::specs::Reading::object_at))]
pub(crate) fn object_of(alloc: Global, bytes: &[u8]) -> Result<(ShownObject, &[u8]), Stop>
    ensures { Gives (λ x. (x.0, x.1.now)) result (object_at bytes.now) }
{
    let (store, rest) = word_until(alloc, bytes, b' ')?;
    let ((name, _end), rest) = name_of(alloc, rest, b" ")?;
    let (class, rest) = word_until(alloc, rest, b' ')?;
    let ((version, fields), rest) = held_of(alloc, rest)?;
    let object = ShownObject {
        store,
        name,
        class,
        version,
        fields,
    };
    Ok((object, rest))
}
