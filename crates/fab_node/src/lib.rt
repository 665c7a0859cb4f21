//! An honest node: a store or a worker with its journal. It plans what it does at an event, writes the
//! record of it, and then does it; a crash may come between.
#![tactic(auto)]

mod accepting;
mod doing;
mod given;
mod making;
mod node;
mod plan;
mod planned;
mod planning;
mod recovery;
mod role;
mod writing;

pub use given::Given;
pub use making::role_at_start;
pub use node::Node;
pub use plan::NodePlan;
pub use role::Role;
