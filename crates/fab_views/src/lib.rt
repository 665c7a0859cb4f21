//! What a set of nodes may read of a bundle, and that it computes of each request what it may see.
#![tactic(auto)]

mod laws;

pub use laws::{bundles_agree, sets_of_nodes_have_views, sets_of_nodes_see};
