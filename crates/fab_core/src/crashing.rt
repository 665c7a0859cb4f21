//! A node goes down.

ghost use Rattle.std.specs.Prelude.{◌≡◌, ◌<◌, ◌++◌, ◌∷◌, [], IfOk, OnErr};
ghost use Rattle.fab_net.specs.declared.event.Event.TheVariants.{Crash};
ghost use Rattle.fab_world.specs.Machine.{Enabled};
ghost use Rattle.fab_world.specs.Serial.{attempts};
ghost use Rattle.fab_core.specs.Cores.{setting, unmarked, world};
ghost use Rattle.fab_core.specs.Moved.{IsCaused, IsMoved};
ghost use Rattle.fab_core.specs.Places.{AreOthers, HasNode, IsDownAt, journals_of};

use crate::applied::Applied;
use crate::core_state::Core;
use fab_base::{NoMemory, Seq};
use fab_device::Journal;
use fab_net::{Event, Logged};
use fab_node::Node;
use fab_nodes::note;

/// The node of this number goes down.
fn crash_at<J: Journal>(nodes: &mut Vec<Option<Node<J>>>, n: u16)
    requires { HasNode n nodes.old.items }
    ensures down { IsDownAt n nodes.old.items nodes.new.items }
    ensures others { AreOthers n nodes.old.items nodes.new.items }
    ensures journals { IsCaused n ⊥ (journals_of nodes.old.items) (journals_of nodes.new.items) }
{
    match &mut nodes[usize::from(n)] {
        Some(node) => node.crash(),
        None => unreachable!(),
    }
}

impl<J: Journal> Core<J> {
    /// A node that is up goes down.
    pub(crate) fn crashes(&mut self, n: u16) -> Result<Applied, NoMemory>
        requires enabled { Enabled (setting self.old.given) (world self.old) (unmarked (Crash n)) }
        requires few { attempts self.old.moves < 4000000000 }
        ensures { IsMoved (Crash n) result self.old self.new }
    {
        self.log.reserve(1)?;
        crash_at(&mut self.nodes, n);
        self.queues.drop_to(n);
        let logged = Logged {
            event: Event::Crash(n),
            bytes: Seq::new(self.alloc),
            notes: Seq::new(self.alloc),
            whole: true,
            marked: false,
        };
        note(&mut self.log, logged);
        Ok(Applied::Whole)
    }
}
