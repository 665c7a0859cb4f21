//! The objects of a run, with the heaps to which a failure may have to go back.
#![tactic(auto)]

mod answers;
mod copies;
mod frame_error;
mod frames;
mod known;
mod log;
mod names;
mod objects;
mod touches;

pub use answers::field_of;
pub use frame_error::FrameError;
pub use frames::Frames;
pub use touches::Touches;
