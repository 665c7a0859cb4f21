//! From tokens to a bundle: the grammar of a whole text, and the limits that it keeps.
#![tactic(auto)]

mod crashes;
mod error;
mod limits;
mod literals;
mod locals;
mod posts;
mod roots;
mod schedule;
mod sessions;
mod sites;
mod text;

pub use error::BundleError;
pub use text::bundle;
