//! Laws that tie the rules of names and types to the laws of the meaning, as the contracts of calls that
//! do nothing.
#![tactic(auto)]

mod laws;

pub use laws::{
    evaluations_stay_whole, objects_closed, objects_shaped, requests_fit, requests_there,
    well_typed,
};
