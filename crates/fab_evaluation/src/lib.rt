//! What a bundle comes to: its requests one after the other, over the objects that are there from the
//! start.
#![tactic(auto)]

mod objects;
mod outcomes;
mod sequence;
mod single;
mod text;

pub use objects::at_start;
pub use text::evaluation;
