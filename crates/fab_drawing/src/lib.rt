//! What the program that draws does with its words, its input and its output: a bundle with a report behind it
//! is read, and the picture of the report is written.
#![tactic(auto)]

mod asked;
mod drawing;
mod ending;
mod parts;
mod reply;
mod words;

pub use asked::Asked;
pub use drawing::draw;
pub use ending::Ending;
pub use fab_front::Status;
