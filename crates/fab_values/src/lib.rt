//! What is computed from values alone: conditions, comparisons and operators.
#![tactic(auto)]

mod values;

pub use values::{applied, compares, default, holds, operate, truth};
