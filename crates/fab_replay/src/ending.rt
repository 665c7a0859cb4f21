//! What holds of a run that has ended, and its journals.

ghost use Rattle.std.specs.Prelude.{◌≡◌, None, IfOk, OnErr};
ghost use Rattle.fab_core.specs.Honest.{honest_in};
ghost use Rattle.fab_replay.specs.Kept.{IsCutOff, IsOnWay, IsPossible};
ghost use Rattle.fab_replay.specs.Replays.{IsTold};
ghost use Rattle.fab_replay.specs.Running.{AreMarked, AreSure, IsEnded};

use crate::answers::first_mark;
use crate::integral::is_integral;
use crate::isolated::is_isolated;
use crate::journals::keep_all;
use crate::replayed::{Replayed, Wanted};
use crate::trust::is_trusted;
use fab_base::NoMemory;
use fab_core::Core;
use fab_device::{Journal, Journals};
use fab_tree::resolved::Resolved;
use std::alloc::AllocError;

/// Hands on what a run is answered, once each journal is given back, in the order of the nodes. Where memory ran out
/// before, or a journal was lost for want of it, the first journal's fault is told without a text, if there was one.
pub(crate) fn finished<M: Journals>(
    core: Core<M::Item>,
    program: &Resolved,
    nodes: &[u16],
    wanted: &Wanted,
    answer: Result<Replayed, NoMemory>,
    journals: &mut M,
) -> Result<Replayed, NoMemory>
    requires program { program.now ≡ core.given.program }
    requires nodes { nodes.now ≡ honest_in core.given }
    requires answer { IfOk answer (IsTold core.given wanted.now core.moves) }
    requires on_way { IsOnWay core.given wanted.now core.moves }
    requires marked { AreMarked core.moves core.journals }
    requires sure { AreSure (M.seen journals.old).may_fail core.given core.journals }
    ensures answer { IfOk result (λ answer. IsEnded core.given wanted.now answer (M.seen journals.old) (M.seen journals.new)) }
    ensures possible { IfOk result (IsPossible (M.seen journals.old).may_fail core.given.program) }
    ensures memory { OnErr result (IsCutOff core.given wanted.now None (M.seen journals.old) (M.seen journals.new)) }
    ensures made { (M.seen journals.new).made ≡ (M.seen journals.old).made }
    ensures faults { (M.seen journals.new).faults ≡ (M.seen journals.old).faults }
    ensures told { (M.seen journals.new).may_fail ≡ (M.seen journals.old).may_fail }
{
    let _wanted = wanted;
    core.is_a_run();
    core.journals_are();
    is_integral(&core);
    is_isolated(&core);
    is_trusted(&core);
    let mark = first_mark(core.log());
    let kept = keep_all(program, nodes, core.into_journals(), journals);
    if kept.is_ok()
        && let Ok(answer) = answer
    {
        return Ok(answer);
    }
    match mark {
        Some(node) => Ok(Replayed::JournalFault { node, report: None }),
        None => Err(AllocError),
    }
}
