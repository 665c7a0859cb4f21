//! The first fault of names and types of a bundle.
#![tactic(auto)]

mod bundle;
mod items;
mod rule;
mod rules;
mod walk;

pub use bundle::first_fault;
pub use rule::HeadRule;
pub use walk::in_heads;
