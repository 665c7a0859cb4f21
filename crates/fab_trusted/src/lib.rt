//! Trusted replay: what commits make of the objects of classes that exclude some nodes, from these objects,
//! the requests and endorsed values, without answers; and robust declassifications. Definitions and laws.
#![tactic(auto)]

mod laws;
mod rows;

pub use laws::{robust_values_trusted, trusted_replay_agrees};
pub use rows::Guard;
