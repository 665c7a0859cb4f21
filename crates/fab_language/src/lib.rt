//! What a bundle means: the rules of names and types, numbers for names, and what requests do over a
//! flat map. The definitions stand in `specs`; the types that they answer with stand here.
#![tactic(auto)]

mod ending;
mod rule;

pub use ending::Ending;
pub use rule::{Fault, NameRule};
