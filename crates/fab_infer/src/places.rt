//! The places of holes.
ghost use Rattle.std.specs.Prelude.{◌≡◌, ◌≤◌, ◌++◌, IfOk, OnOk, length};
ghost use Rattle.fab_holes.specs.Chosen.{places_in, places_of};

use fab_base::{NoMemory, Seq};
use fab_tree::resolved::{Local, Resolved};
use std::alloc::Global;

/// The places of the holes among these locals, behind those that are there.
fn put_places(out: &mut Seq<u32>, locals: &[Local], count: u16) -> Result<(), NoMemory>
    ensures { OnOk result (out.new ≡ out.old ++ places_in count locals.now) }
{
    let mut rest = locals;
    'locals: while let Some((local, after)) = rest.split_first() {
        if local.label.number >= count {
            out.push(local.label.at)?;
        }
        rest = after;
    }
    Ok(())
}

/// The places of the holes of a bundle, in the order of the text.
pub(crate) fn places(alloc: Global, start: &Resolved) -> Result<Seq<u32>, NoMemory>
    requires { length start.now.labels ≤ 64 }
    ensures { IfOk result (λ places. places ≡ places_of start.now) }
{
    let count = start.labels.len() as u16;
    let mut out = Seq::new(alloc);
    for method in start.methods.as_slice() {
        put_places(&mut out, method.locals.as_slice(), count)?;
    }
    Ok(out)
}
