//! What of an attempt the simulator knows: the parts that its request comes to over what is known,
//! and what stores are asked and told, in bytes.
#![tactic(auto)]

mod asking;
mod parts;

pub use asking::{add_all, keep_in_set, one, prepares, stores_below, to_all};
pub use parts::parts_from;
