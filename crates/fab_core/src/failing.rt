//! A call of the journal of a node counts as having failed.

ghost use Rattle.std.specs.Prelude.{◌≡◌, ◌<◌, ◌++◌, ◌∷◌, [], OnOk, OnErr};
ghost use Rattle.fab_world.specs.Machine.{Enabled};
ghost use Rattle.fab_world.specs.Serial.{attempts};
ghost use Rattle.fab_core.specs.Cores.{failure, setting, world};
ghost use Rattle.fab_core.specs.Moved.{HasFailed};
ghost use Rattle.fab_core.specs.Places.{AreOthers, HasFailedAt, HasNode, journals_of};

use crate::core_state::Core;
use fab_base::NoMemory;
use fab_device::Journal;
use fab_net::{Inner, node_of};
use fab_node::Node;
use fab_nodes::{bytes_of, failed_in, note};

/// The node of this number goes down for good.
fn fail_at<J: Journal>(nodes: &mut Vec<Option<Node<J>>>, n: u16)
    requires { HasNode n nodes.old.items }
    ensures failed { HasFailedAt n nodes.old.items nodes.new.items }
    ensures others { AreOthers n nodes.old.items nodes.new.items }
    ensures journals { journals_of nodes.new.items ≡ journals_of nodes.old.items }
{
    match &mut nodes[usize::from(n)] {
        Some(node) => node.fail(),
        None => unreachable!(),
    }
}

impl<J: Journal> Core<J> {
    /// An event of a node in which a call of its journal counts as having failed, for whoever tells a run
    /// again: of the event nothing counts but the crash, and the node has failed for good. Nothing is
    /// asked of any journal, and each stays as it was: behind it the run has a mark at a node whose journal
    /// told no fault.
    pub fn fail(&mut self, inner: Inner) -> Result<(), NoMemory>
        requires enabled { Enabled (setting self.old.given) (world self.old) (failure inner) }
        requires few { attempts self.old.moves < 4000000000 }
        ensures given { self.new.given ≡ self.old.given }
        ensures moves { OnOk result (self.new.moves ≡ self.old.moves ++ failure inner ∷ []) }
        ensures memory { OnErr result (self.new.moves ≡ self.old.moves) }
        ensures journals { self.new.journals ≡ self.old.journals }
    {
        self.fails(inner)
    }

    /// The same, with what it comes to in one.
    fn fails(&mut self, inner: Inner) -> Result<(), NoMemory>
        requires enabled { Enabled (setting self.old.given) (world self.old) (failure inner) }
        requires few { attempts self.old.moves < 4000000000 }
        ensures { HasFailed inner result self.old self.new }
    {
        self.log.reserve(1)?;
        let bytes = bytes_of(self.alloc, &self.queues, inner)?;
        fail_at(&mut self.nodes, node_of(inner));
        self.queues.drop_to(node_of(inner));
        note(&mut self.log, failed_in(self.alloc, inner, bytes));
        Ok(())
    }
}
