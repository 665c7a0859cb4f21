//! What a run begins with.

ghost use Rattle.std.specs.Prelude.{◌≡◌, ◌≤◌, [], IfErr, IfOk, OnOk, map};
ghost use Rattle.fab_language.specs.Numbers.{resolved};
ghost use Rattle.fab_settings.specs.Settings.{IsAcceptedWith};
ghost use Rattle.fab_tree.specs.declared.start.Start.{Start};
ghost use Rattle.fab_core.specs.Honest.{honest_in};
ghost use Rattle.fab_core.specs.Starts.{given_by};
ghost use Rattle.fab_replay.specs.Making.{HasNoCore, HaveMade, IsUnstarted};
ghost use Rattle.fab_replay.specs.Running.{AreNew, AreUnfailed, seen_by};

use crate::journals::{Unstarted, keep_all, make_journals};
use fab_base::Seq;
use fab_core::{Core, CoreRefused};
use fab_device::{Journal, Journals};
use fab_rights::Rights;
use fab_tree::resolved::Resolved;
use std::alloc::Global;
use std::sync::Arc;

/// The core of journals that were made, one for each of these nodes. Where there is none, they are given back.
fn core_of<M: Journals>(
    alloc: Global,
    program: Arc<Resolved>,
    rights: Rights,
    bundle: &Resolved,
    nodes: &[u16],
    made: Seq<M::Item>,
    journals: &mut M,
) -> Result<Core<M::Item>, Unstarted>
    requires accepted { (s : Start) × (resolved s ≡ program.value) × IsAcceptedWith s rights }
    requires bundle { bundle.now ≡ program.value }
    requires nodes { nodes.now ≡ honest_in (given_by program.value rights) }
    requires new { AreNew (M.seen journals.old).may_fail bundle.now nodes.now (map (seen_by M.Item.content M.Item.synced M.Item.room M.Item.faults M.Item.sure) made) }
    ensures given { IfOk result (λ core. core.given ≡ given_by program.value rights) }
    ensures moves { IfOk result (λ core. core.moves ≡ []) }
    ensures unfailed { IfOk result (λ core. AreUnfailed (M.seen journals.old).may_fail core.given core.journals) }
    ensures same { OnOk result (M.seen journals.new ≡ M.seen journals.old) }
    ensures failed { IfErr result (HasNoCore (given_by program.value rights) (M.seen journals.old) (M.seen journals.new)) }
    ensures made { (M.seen journals.new).made ≡ (M.seen journals.old).made }
    ensures faults { (M.seen journals.new).faults ≡ (M.seen journals.old).faults }
    ensures told { (M.seen journals.new).may_fail ≡ (M.seen journals.old).may_fail }
{
    match Core::make(alloc, program, rights, made) {
        Ok(core) => {
            core.is_a_run();
            core.journals_are();
            Ok(core)
        }
        Err(CoreRefused::Memory { journals: back }) => {
            keep_all(bundle, nodes, back, journals)?;
            Err(Unstarted::Memory)
        }
        Err(
            CoreRefused::Journal {
                node,
                journals: back,
            },
        ) => {
            // The fault is told whether its maker kept each journal or lost one, which it counts.
            let _kept = keep_all(bundle, nodes, back, journals);
            Err(Unstarted::Failed { node })
        }
    }
}

/// All nodes of an accepted bundle at the start of a run, each of these with a new journal that holds its header.
/// Where one couldn't be made, a header couldn't be written or memory runs out, each that was made is given back, in
/// the order of the nodes.
pub(crate) fn started<M: Journals>(
    alloc: Global,
    program: Arc<Resolved>,
    rights: Rights,
    bundle: &Resolved,
    nodes: &[u16],
    journals: &mut M,
) -> Result<Core<M::Item>, Unstarted>
    requires accepted { (s : Start) × (resolved s ≡ program.value) × IsAcceptedWith s rights }
    requires bundle { bundle.now ≡ program.value }
    requires nodes { nodes.now ≡ honest_in (given_by program.value rights) }
    ensures given { IfOk result (λ core. core.given ≡ given_by program.value rights) }
    ensures moves { IfOk result (λ core. core.moves ≡ []) }
    ensures unfailed { IfOk result (λ core. AreUnfailed (M.seen journals.old).may_fail core.given core.journals) }
    ensures made { OnOk result (HaveMade (given_by program.value rights) (M.seen journals.old) (M.seen journals.new)) }
    ensures failed { IfErr result (IsUnstarted (given_by program.value rights) (M.seen journals.old) (M.seen journals.new)) }
    ensures later { (M.seen journals.old).faults ≤ (M.seen journals.new).faults }
    ensures told { (M.seen journals.new).may_fail ≡ (M.seen journals.old).may_fail }
{
    let mut made = Vec::new(alloc);
    made.reserve(nodes.len())?;
    match make_journals(bundle, nodes, &mut made, journals) {
        Ok(()) => core_of(
            alloc,
            program,
            rights,
            bundle,
            nodes,
            Seq::from_vec(made),
            journals,
        ),
        Err(Unstarted::Failed { node }) => {
            let _kept = keep_all(bundle, nodes, Seq::from_vec(made), journals);
            Err(Unstarted::Failed { node })
        }
        Err(Unstarted::Memory) => {
            keep_all(bundle, nodes, Seq::from_vec(made), journals)?;
            Err(Unstarted::Memory)
        }
    }
}
