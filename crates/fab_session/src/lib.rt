//! The numbers of one worker: of its requests, its attempts and its tries.
#![tactic(auto)]

mod session;

pub use session::Session;
