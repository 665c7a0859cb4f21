//! What a run has sent into a set of nodes, whichever it is.

ghost use Rattle.fab_replay.specs.Isolated.{IsIsolated};

use fab_core::Core;
use fab_device::Journal;
use fab_shadow::bundles_are_isolated;

/// Whatever nodes a set has, if the hostile ones are among them: what each node outside it has sent each of its
/// nodes is the public replay of the release record of the core's log.
pub fn is_isolated<J: Journal>(core: &Core<J>)
    ensures { IsIsolated core.now.given core.now.moves }
{
    core.is_a_run();
    bundles_are_isolated();
}
