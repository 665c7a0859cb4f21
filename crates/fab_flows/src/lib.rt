//! The reply to whether one label flows to another, with its reasons.
#![tactic(auto)]

mod covers;
mod names;
mod reply;

pub use reply::flow_reply;
