//! A worker that is alone: its runs give what its requests come to one after the other. The functions do
//! nothing: their contracts are the laws.
#![tactic(auto)]

mod laws;

pub use laws::{alone_is_eval, alone_is_in_turn};
