//! All nodes of a bundle, one event at a time: whose turn it is, what comes of it, and the crashes that the bundle's lines
//! make.
#![tactic(auto)]

mod acting;
mod counting;
mod events;
mod exchange;
mod finding;
mod found;
mod lines;
mod taking;
mod turn;

pub use exchange::Exchange;
pub use turn::{Given, Turn};
