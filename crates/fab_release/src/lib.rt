//! What a run releases to a set of nodes, and what the set may know of a bundle, as types and
//! definitions: the release record, the public part and the public replay.
#![tactic(auto)]

mod release;

pub use release::{Release, Released};
