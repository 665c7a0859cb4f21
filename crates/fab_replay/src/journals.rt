//! The nodes' journals: made before a run, and kept behind it.

ghost use Rattle.std.specs.Prelude.{◌≡◌, ◌≤◌, [], IfErr, OnOk, length, map, vec_capacity};
ghost use Rattle.fab_language.specs.Words.{node_text};
ghost use Rattle.fab_replay.specs.Kept.{with_more};
ghost use Rattle.fab_replay.specs.Making.{HasFailed};
ghost use Rattle.fab_replay.specs.Running.{AreNew, GivesBack, entries_of, seen_by};
ghost use Rattle.fab_replay.specs.declared.journals.Unstarted.TheVariants.{Memory as Wanting};

use fab_base::{NoMemory, Seq};
use fab_device::{JournalError, Journals};
use fab_lines::node_name;
use fab_tree::resolved::Resolved;
use std::alloc::AllocError;

/// Why there is no run: the journal of this node couldn't be made, or its header couldn't be written; or memory
/// ran out.
#[derive(Clone, Copy, Debug)]
pub enum Unstarted {
    Failed { node: u16 },
    Memory,
}

impl From<AllocError> for Unstarted {
    ghost from_gives = { λ _ e. e ≡ Wanting };

    fn from(_: AllocError) -> Self {
        Unstarted::Memory
    }
}

/// A journal for each of these nodes, in their order, behind which the vector has a place for each. Where there is an
/// error, it has those that were made.
pub(crate) fn make_journals<M: Journals>(
    program: &Resolved,
    nodes: &[u16],
    made: &mut Vec<M::Item>,
    journals: &mut M,
) -> Result<(), Unstarted>
    requires none { made.old.items ≡ [] }
    requires room { length nodes.now ≤ vec_capacity made.old }
    ensures made { OnOk result (AreNew (M.seen journals.old).may_fail program.now nodes.now (map (seen_by M.Item.content M.Item.synced M.Item.room M.Item.faults M.Item.sure) made.new.items)) }
    ensures failed { IfErr result (HasFailed program.now nodes.now (M.seen journals.old) (M.seen journals.new) (map (seen_by M.Item.content M.Item.synced M.Item.room M.Item.faults M.Item.sure) made.new.items)) }
    ensures later { (M.seen journals.old).faults ≤ (M.seen journals.new).faults }
    ensures same { OnOk result ((M.seen journals.new).faults ≡ (M.seen journals.old).faults) }
    ensures all { OnOk result ((M.seen journals.new).made ≡ with_more (M.seen journals.old).made (map (node_text program.now) nodes.now)) }
    ensures kept { (M.seen journals.new).kept ≡ (M.seen journals.old).kept }
    ensures lost { (M.seen journals.new).lost ≡ (M.seen journals.old).lost }
    ensures told { (M.seen journals.new).may_fail ≡ (M.seen journals.old).may_fail }
{
    let mut rest = nodes;
    'nodes: while let Some((node, after)) = rest.split_first() {
        match journals.make(node_name(program, *node)) {
            Ok(journal) => made.push_reserved(journal),
            Err(JournalError::Memory) => return Err(Unstarted::Memory),
            Err(JournalError::Failed) => return Err(Unstarted::Failed { node: *node }),
        }
        rest = after;
    }
    Ok(())
}

/// Gives back the journals of these nodes, one after the other in their order, as many as there are of both: each is
/// kept, or its maker wants memory for it, and counts it as lost.
pub(crate) fn keep_all<M: Journals>(
    program: &Resolved,
    nodes: &[u16],
    all: Seq<M::Item>,
    journals: &mut M,
) -> Result<(), NoMemory>
    ensures back { GivesBack result (entries_of program.now nodes.now (map (seen_by M.Item.content M.Item.synced M.Item.room M.Item.faults M.Item.sure) all)) (M.seen journals.old) (M.seen journals.new) }
    ensures made { (M.seen journals.new).made ≡ (M.seen journals.old).made }
    ensures faults { (M.seen journals.new).faults ≡ (M.seen journals.old).faults }
    ensures told { (M.seen journals.new).may_fail ≡ (M.seen journals.old).may_fail }
{
    let mut left = all.into_vec();
    left.reverse();
    let mut kept = Ok(());
    let mut rest = nodes;
    'nodes: while let Some((node, after)) = rest.split_first() {
        let Some(journal) = left.pop() else {
            return kept;
        };
        rest = after;
        match journals.keep(node_name(program, *node), journal) {
            Ok(()) => {}
            Err(problem) => kept = Err(problem),
        }
    }
    kept
}
