//! What stores and workers know of classes and of one another, by numbers alone.
#![tactic(auto)]

mod masks;
mod rights;

pub use masks::is_in;
pub use rights::{ClassRights, Rights, Shape};
