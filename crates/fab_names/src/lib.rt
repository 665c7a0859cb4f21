//! Bundles with numbers for names, or the first fault of their names and types.
#![tactic(auto)]

mod error;
mod resolution;

pub use error::NameError;
pub use resolution::resolve;
