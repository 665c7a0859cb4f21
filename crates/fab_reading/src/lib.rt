//! Reading a text by the rules of a grammar: marks, names and lists, from tokens.
#![tactic(auto)]

mod item;
mod numbers;
mod reading;
mod refusal;
mod room;
mod rule;

pub use item::{Item, separated};
pub use numbers::{least, negative, number, numeral};
pub use reading::{behind, name, next, open, place, sign, starts_name};
pub use refusal::Refusal;
pub use room::{added, fitted};
pub use rule::{Rule, repeated};
