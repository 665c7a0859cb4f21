//! Laws that tie the rules of labels to the laws of the meaning: which stores hold which objects. They
//! are the contracts of calls that do nothing.
#![tactic(auto)]

mod laws;

pub use laws::{evaluations_hold_objects, made_where_held, objects_are_held};
