//! What `infer` replies to a text that has a bundle.
#![tactic(auto)]

mod reply;

pub use reply::inferred;
