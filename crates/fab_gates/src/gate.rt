//! What is called before and after an evaluation.

use std::sync::atomic::{AtomicBool, Ordering};
use std::thread;

/// For so many turns, with a yield each, a gate holds at most.
const MOST_TURNS: u32 = 10_000_000;

/// What is called around each evaluation of a run, with the number of the worker: before it and after it, by the thread that evaluates,
/// while that thread holds no lock.
///
/// A gate may hold the thread that calls it, so a test can bring evaluations of several threads into an order, as that two of them go on
/// at once. It is told nothing but the worker's number and answers nothing, so it has no part in what a run is. It promises nothing, not
/// even that it holds: what one thread sees of another is known to no contract. Each of these gates lets go by itself at last, and those
/// that hold tell whether they did, so a test that takes one asks that.
pub trait Gate {
    fn before(&self, worker: u16);

    fn after(&self, worker: u16);
}

/// A gate that is always open.
#[derive(Drop)]
pub struct OpenGate;

impl Gate for OpenGate {
    fn before(&self, _worker: u16) {}

    fn after(&self, _worker: u16) {}
}

/// Holds until a flag is set, for a bounded number of turns. Whether it was set.
pub(crate) fn held_until(flag: &AtomicBool) -> bool {
    for _ in 0..MOST_TURNS {
        if flag.load(Ordering::SeqCst) {
            return true;
        }
        thread::yield_now();
    }
    false
}
