//! The erased meaning over fewer objects, by laws.
#![tactic(auto)]

mod laws;

pub use laws::{
    asks_are_in_view, blanks_change_nothing, known_objects_are_touched, less_is_known, maps_agree,
    views_replay,
};
