//! Who may read, write and hold what, over a bundle and its closed delegations.
#![tactic(auto)]

mod classes;
mod laws;
mod masks;
mod nodes;
mod policies;
mod sights;

pub use classes::rights;
pub use laws::{flows_narrow_readers, flows_widen_writers, outsiders_write_and_hold_nothing};
pub use masks::{Seen, mask_of};
pub use nodes::{is_store, principal_of};
pub use policies::{may_hold, readers, writers};
pub use sights::{excluding, seen, trusted};
