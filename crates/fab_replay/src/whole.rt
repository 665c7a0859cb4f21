//! A whole replay.

ghost use Rattle.std.specs.Prelude.{◌≡◌, ◌≤◌, [], None, IfOk, IsTrue, OnErr};
ghost use Rattle.fab_language.specs.Numbers.{resolved};
ghost use Rattle.fab_settings.specs.Settings.{IsAcceptedWith};
ghost use Rattle.fab_tree.specs.declared.start.Start.{Start};
ghost use Rattle.fab_core.specs.Honest.{honest_in};
ghost use Rattle.fab_core.specs.Starts.{given_by};
ghost use Rattle.fab_replay.specs.Kept.{IsCutOff, IsCutShort, IsPossible, IsReplayed};
ghost use Rattle.fab_replay.specs.Replays.{IsReady, is_scheduled};
ghost use Rattle.fab_replay.specs.Running.{AreUnfailed, IsEnded};

use crate::answers::answer;
use crate::beginning::started;
use crate::ending::finished;
use crate::journals::Unstarted;
use crate::replayed::{Replayed, Wanted};
use crate::running::run;
use fab_base::NoMemory;
use fab_core::Core;
use fab_device::{Journal, Journals};
use fab_rights::Rights;
use fab_tree::resolved::Resolved;
use std::alloc::{AllocError, Global};
use std::sync::Arc;

/// The schedule's run from a core at the start, with the journals kept behind it.
fn over<M: Journals>(
    alloc: Global,
    core: Core<M::Item>,
    program: &Resolved,
    nodes: &[u16],
    wanted: &Wanted,
    journals: &mut M,
) -> Result<Replayed, NoMemory>
    requires moves { core.moves ≡ [] }
    requires program { program.now ≡ core.given.program }
    requires nodes { nodes.now ≡ honest_in core.given }
    requires scheduled { IsTrue (is_scheduled wanted.now) }
    requires ready { IsReady core.given wanted.now }
    requires unfailed { AreUnfailed (M.seen journals.old).may_fail core.given core.journals }
    ensures answer { IfOk result (λ answer. IsEnded core.given wanted.now answer (M.seen journals.old) (M.seen journals.new)) }
    ensures possible { IfOk result (IsPossible (M.seen journals.old).may_fail core.given.program) }
    ensures memory { OnErr result (IsCutOff core.given wanted.now None (M.seen journals.old) (M.seen journals.new)) }
    ensures made { (M.seen journals.new).made ≡ (M.seen journals.old).made }
    ensures faults { (M.seen journals.new).faults ≡ (M.seen journals.old).faults }
    ensures told { (M.seen journals.new).may_fail ≡ (M.seen journals.old).may_fail }
{
    let mut core = core;
    core.is_a_run();
    match run(alloc, &mut core, program) {
        Ok(ran) => {
            let answer = answer(alloc, &core, program, wanted, ran);
            finished(core, program, nodes, wanted, answer, journals)
        }
        Err(AllocError) => finished(core, program, nodes, wanted, Err(AllocError), journals),
    }
}

/// The replay of a bundle's schedule. Each honest node has a journal, in which the run begins with its
/// header; crash lines are ignored. The events come in order, up to the first that may not come or in
/// which a journal fails. Then each journal is given back, in the order of the nodes, before there is an
/// answer; where a header couldn't be written or memory ran out, too.
pub(crate) fn replay<M: Journals>(
    alloc: Global,
    program: Arc<Resolved>,
    rights: Rights,
    bundle: &Resolved,
    nodes: &[u16],
    wanted: &Wanted,
    journals: &mut M,
) -> Result<Replayed, NoMemory>
    requires scheduled { IsTrue (is_scheduled wanted.now) }
    requires accepted { (s : Start) × (resolved s ≡ program.value) × IsAcceptedWith s rights }
    requires bundle { bundle.now ≡ program.value }
    requires nodes { nodes.now ≡ honest_in (given_by program.value rights) }
    requires ready { IsReady (given_by program.value rights) wanted.now }
    ensures answer { IfOk result (λ answer. IsReplayed (given_by program.value rights) wanted.now answer (M.seen journals.old) (M.seen journals.new)) }
    ensures possible { IfOk result (IsPossible (M.seen journals.old).may_fail program.value) }
    ensures later { (M.seen journals.old).faults ≤ (M.seen journals.new).faults }
    ensures memory { OnErr result (IsCutShort (given_by program.value rights) wanted.now (M.seen journals.old) (M.seen journals.new)) }
    ensures told { (M.seen journals.new).may_fail ≡ (M.seen journals.old).may_fail }
{
    match started(alloc, program, rights, bundle, nodes, journals) {
        Ok(core) => over(alloc, core, bundle, nodes, wanted, journals),
        Err(Unstarted::Failed { node }) => Ok(Replayed::JournalFault { node, report: None }),
        Err(Unstarted::Memory) => Err(AllocError),
    }
}
