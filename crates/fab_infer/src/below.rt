//! What lies below each hole.
ghost use Rattle.std.specs.Prelude.{◌≡◌, ℕ, IfOk, length};
ghost use Rattle.fab_tree.specs.declared.start.Start.{Start as Bundle};
ghost use Rattle.fab_language.specs.Numbers.{resolved};
ghost use Rattle.fab_holes.specs.Chosen.{places_of};
ghost use Rattle.fab_holes.specs.Holes.{IsNamed};
ghost use Rattle.fab_infer.specs.Masks.{AreBelow};
ghost use Rattle.fab_infer.specs.Small.{IsSmall};

use crate::closing::closed;
use crate::flows::gathered;
use crate::opened::open_methods;
use fab_base::{NoMemory, Seq};
use fab_tree::resolved::Resolved;
use std::alloc::Global;

/// A mask for each hole: bit l says that label l lies below it. The cost is linear in what flows, up to
/// 64 times where masks gain bit by bit; what flows to holes is held meanwhile, 12 bytes for each.
pub(crate) fn below(alloc: Global, start: &Resolved) -> Result<Seq<u64>, NoMemory>
    requires { IsSmall start.now }
    ensures many { IfOk result (λ masks. length masks ≡ length (places_of start.now)) }
    ensures masks { IfOk result (λ masks. (s : Bundle) → IsNamed s → start.now ≡ resolved s → AreBelow start.now 0 masks) }
{
    let count = start.labels.len() as u16;
    let (methods, holes) = open_methods(alloc, start.methods.as_slice(), count)?;
    let flows = gathered(alloc, start.classes.as_slice(), &methods, count)?;
    closed(alloc, flows.as_slice(), count, holes)
}
