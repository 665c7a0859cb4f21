//! An event is cut by a crash of its node.

ghost use Rattle.std.specs.Prelude.{◌≡◌, ◌<◌, ◌++◌, ◌∷◌, [], IfOk, OnErr};
ghost use Rattle.std.specs.Option.{option_copied};
ghost use Rattle.fab_net.specs.declared.event.Event.TheVariants.{CrashIn};
ghost use Rattle.fab_world.specs.Machine.{Enabled, node_of as node_in};
ghost use Rattle.fab_world.specs.Serial.{attempts};
ghost use Rattle.fab_core.specs.Cores.{InnerHasDone, setting, unmarked, world};
ghost use Rattle.fab_core.specs.Moved.{IsMoved};

use crate::acting::act_cut_at;
use crate::applied::Applied;
use crate::core_state::Core;
use fab_base::NoMemory;
use fab_device::{Journal, JournalError};
use fab_eval::Done;
use fab_net::{Inner, node_of};
use fab_nodes::{bytes_of, cut_in, failed_in, note};
use std::alloc::AllocError;

impl<J: Journal> Core<J> {
    /// Does an event of a node up to its record, of which so many bytes stay, and the node goes down.
    pub(crate) fn cuts(
        &mut self,
        keep: u32,
        inner: Inner,
        done: Option<&Done>,
    ) -> Result<Applied, NoMemory>
        requires enabled { Enabled (setting self.old.given) (world self.old) (unmarked (CrashIn keep inner)) }
        requires done { InnerHasDone self.old.given (world self.old) inner (option_copied done) }
        requires few { attempts self.old.moves < 4000000000 }
        ensures { IsMoved (CrashIn keep inner) result self.old self.new }
    {
        self.log.reserve(1)?;
        let bytes = bytes_of(self.alloc, &self.queues, inner)?;
        match act_cut_at(
            &self.given,
            &mut self.nodes,
            inner,
            bytes.as_slice(),
            done,
            keep as usize,
        ) {
            Ok(step) => {
                self.queues.drop_to(node_of(inner));
                note(&mut self.log, cut_in(self.alloc, keep, inner, bytes, step));
                Ok(Applied::Whole)
            }
            Err(JournalError::Memory) => Err(AllocError),
            Err(JournalError::Failed) => {
                self.queues.drop_to(node_of(inner));
                note(&mut self.log, failed_in(self.alloc, inner, bytes));
                Ok(Applied::Cut)
            }
        }
    }
}
