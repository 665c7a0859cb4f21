//! What a request does over a flat map, by the words of its meaning, as far as who sees some labels
//! can compute it: with whatever fuel, over a stack of what is left to do.
#![tactic(auto)]

mod act;
mod erased;
mod expressions;
mod methods;
mod paused;
mod setting;
mod shown;
mod whole;

pub use paused::{Paused, Turn, begin};
pub use whole::{Changes, Meant, effect, meaning, plain_effect, plain_meaning};
