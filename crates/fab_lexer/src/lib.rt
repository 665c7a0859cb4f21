//! From bytes to tokens.
#![tactic(auto)]

mod error;
mod front;
mod laws;
mod lexer;
mod marks;
mod quoted;
mod words;

pub use error::LexError;
pub use laws::{longest_signs_are_taken, refusals_have_one_place, tokens_are_one_list};
pub use lexer::tokens;
