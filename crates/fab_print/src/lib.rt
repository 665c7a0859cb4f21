//! The canonical text of a bundle.
#![tactic(auto)]

mod declaration;
mod expression;
mod law;
mod list;
mod piece;
mod print;
mod program;
mod run;
mod statement;

pub use law::print_is_read;
pub use print::print_start;
