//! A bundle with numbers for names.
#![tactic(auto)]

mod declarations;
mod events;
mod expressions;
mod laws;
mod locals;
mod methods;
mod objects;
mod parts;
mod rights;
mod scope;
mod sessions;
mod sites;
mod statements;
mod whole;

pub use laws::{labels_stand_at_their_sites, numbers_have_names, sites_count_up};
pub use whole::numbered;
