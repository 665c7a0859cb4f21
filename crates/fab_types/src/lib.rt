//! Whether as many values are given as are wanted (`arity`), and each of the type that its place
//! needs (what stands here).
//!
//! Each call answers the first of the faults so far and of those in its part.
#![tactic(auto)]

pub mod arity;
mod expressions;
mod kinds;
mod run;
mod statements;
mod taker;

pub use run::{in_root, in_session};
pub use statements::{
    in_assignment, in_call, in_declaration, in_heading, in_result, in_test, in_write,
};
