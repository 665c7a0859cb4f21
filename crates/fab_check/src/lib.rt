//! The label checker: whether a bundle keeps the rules of labels, or its first refusal.
#![tactic(auto)]

mod assignments;
mod calls;
mod downgrades;
mod error;
mod expressions;
mod labels;
mod methods;
mod notes;
mod placement;
mod requests;
mod scope;
mod sites;
mod statements;
mod verdicts;
mod whole;

pub use error::LabelError;
pub use whole::{Checked, check};
