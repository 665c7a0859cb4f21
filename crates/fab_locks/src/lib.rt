//! The transactions that a store holds, and which of them bars a name.
#![tactic(auto)]

mod held;
mod index;
mod indexed;
mod items;
mod locks;
mod names;

pub use held::Held;
pub use locks::Locks;
