//! What holds of a run, whichever nodes are distrusted.

ghost use Rattle.std.specs.Prelude.{ℕ, Bool};
ghost use Rattle.fab_rights.specs.Computed.{has_bit};
ghost use Rattle.fab_replay.specs.Integral.{IsExcluded, IsIntegral};

use fab_core::Core;
use fab_device::Journal;
use fab_places::outsiders_write_and_hold_nothing;

/// Whichever nodes are distrusted, if the hostile ones are among them: what the others hold of classes that
/// none of these may have influenced is what the commits of the others give.
pub fn is_integral<J: Journal>(core: &Core<J>)
    ensures { (nodes : ℕ) (ex : ℕ → Bool) → IsExcluded core.now.given nodes ex → IsIntegral core.now.given core.now.moves (has_bit nodes) ex }
{
    core.is_a_run();
    core.is_serial();
    outsiders_write_and_hold_nothing();
}
