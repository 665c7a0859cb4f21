//! Jobs that go on where the last one paused: evaluators that keep what is left of a job until the next one comes.
#![tactic(auto)]

mod evaluator;
mod evaluators;
mod going;
mod same;

pub use evaluator::Evaluator;
pub use evaluators::Evaluators;
pub use going::answer_behind;
pub use same::{are_same_answers, is_same_request};
