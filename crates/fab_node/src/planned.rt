//! What stands in a plan.

ghost use Rattle.std.specs.Prelude.{◌≡◌};
ghost use Rattle.std.specs.Option.{option_copied};
ghost use Rattle.fab_node.specs.Deeds.{entry_in, sends_in};

use crate::plan::NodePlan;
use fab_base::Seq;

impl NodePlan {
    /// The record that is to be written, if there is one.
    pub fn entry(&self) -> Option<&Seq<u8>>
        ensures { option_copied result ≡ entry_in self.now }
    {
        match self {
            NodePlan::Begins(_) => None,
            NodePlan::Store(plan) => plan.step().entry.as_ref(),
            NodePlan::Worker(plan) => plan.step().entry.as_ref(),
            NodePlan::Wakes { step, .. } => step.entry.as_ref(),
        }
    }

    /// The messages that are to be sent, each with its receiver.
    pub fn sends(&self) -> &[(u16, Seq<u8>)]
        ensures { result.now ≡ sends_in self.now }
    {
        match self {
            NodePlan::Begins(_) => &[],
            NodePlan::Store(plan) => plan.step().sends.as_slice(),
            NodePlan::Worker(plan) => plan.step().sends.as_slice(),
            NodePlan::Wakes { step, .. } => step.sends.as_slice(),
        }
    }
}
