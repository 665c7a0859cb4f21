//! A worker's caches: of each store the last so many distinct objects that were put, with their
//! versions.
#![tactic(auto)]

mod caches;
mod laws;
mod rows;
mod store_cache;

pub use caches::{Caches, NewCaches};
pub use laws::{caches_stay_distinct, puts_in_a_row, renewed_caches_are_cached};
