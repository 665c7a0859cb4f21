//! A request run over a stack of what is left to do, whatever the parts of its program do at once.
#![tactic(auto)]

mod acts;
mod halt;
mod stack;
mod state;
mod stepping;

pub use acts::Acts;
pub use halt::{End, Halt};
pub use stack::{Call, Entry, Lead};
pub use state::State;
pub use stepping::{Way, begun, run};
