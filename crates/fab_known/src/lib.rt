//! What the public replay knows of a worker outside a set: what the worker is known to know in its
//! attempt, with where its request lacks an object, and what its commits left; and of objects, by
//! name and version.
#![tactic(auto)]

mod answers;
mod commits;
mod known;
mod names;
mod run;
mod table;

pub use answers::is_answer;
pub use commits::Commits;
pub use known::Known;
pub use names::is_one_tid;
pub use table::Table;
