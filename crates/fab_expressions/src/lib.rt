//! The grammar of expressions.
#![tactic(auto)]

mod expressions;
mod operators;

pub use expressions::{arguments, expression, starts_expression};
