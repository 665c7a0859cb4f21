//! The picture of a report: its shapes, in order.
#![tactic(auto)]

mod events;
mod fitting;
mod foot;
mod laws;
mod notes;
mod outcomes;
mod pictures;

pub use fitting::first_unfit;
pub use foot::Foot;
pub use laws::each_event_has_its_mark;
pub use pictures::picture;
