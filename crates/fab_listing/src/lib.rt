//! Sets of nodes, and what the nodes of a set were sent by those outside it, in bytes. Where memory runs
//! out, a text may have lost or gained something, and isn't to be used.
#![tactic(auto)]

mod listing;
mod sets;
mod trusted;

pub use listing::print_view;
pub use sets::{hostile_nodes, nodes_named};
pub use trusted::print_trusted;
