//! The flat map from the names of objects to objects.
#![tactic(auto)]

mod laws;
mod map;

pub use laws::{
    ascending_rows, changes_undone, found_after_put, names_compared, names_in_order, rows_of_map,
};
pub use map::ObjectMap;
