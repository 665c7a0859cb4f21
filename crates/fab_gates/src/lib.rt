//! Gates: tests bring the threads of a run into an order by them.
#![tactic(auto)]

mod gate;
mod hold;
mod meet;

pub use gate::{Gate, OpenGate};
pub use hold::HoldGate;
pub use meet::MeetGate;
