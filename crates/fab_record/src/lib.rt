//! What a run releases to a set of nodes, and what the set may know of a bundle, computed.
#![tactic(auto)]

mod changes;
mod entries;
mod events;
mod hidden;
mod names;
mod part;
mod past;
mod scope;
mod sights;
mod whole;

pub use part::public_part;
pub use whole::released;
