//! What labels ask of programs, stores and workers: who may read and write, which store may hold a
//! class, and what a program owes its labels. The definitions stand in `specs`; the types that they
//! answer with stand here.
#![tactic(auto)]

mod rule;

pub use rule::{LabelRule, Refusal, Side};
