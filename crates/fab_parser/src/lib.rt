//! The grammar of what a bundle declares before its run: nodes, delegations, labels, classes and
//! methods.
#![tactic(auto)]

mod classes;
mod delegations;
mod error;
mod labels;
mod methods;
mod nodes;
mod programs;
mod rights;
mod statements;

pub use error::ParseError;
pub use programs::{program, read_program};
