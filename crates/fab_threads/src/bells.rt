//! Threads sleep and are woken.

use fab_base::NoMemory;
use std::alloc::Global;
use std::sync::Wait;
use std::thread;
use std::thread::Parker;
use std::time::Duration;

/// Nodes have numbers below this.
const NUMBERS: u16 = 64;

/// How long a thread sleeps at most, in milliseconds.
const LONGEST: u64 = 1_000;

/// After so many milliseconds a thread looks again that nobody would wake.
const SHORT: u64 = 1;

/// A bell for each node, by which its thread is woken. One that was rung before its thread slept isn't lost.
#[derive(Drop)]
pub(crate) struct Bells {
    bells: Vec<Parker>,
}

impl Bells {
    pub(crate) fn make(alloc: Global) -> Result<Bells, NoMemory> {
        let mut bells = Vec::new(alloc);
        for _ in 0..NUMBERS {
            bells.push(Parker::new())?;
        }
        Ok(Bells { bells })
    }

    /// Wakes the threads of nodes, whose bits these are.
    pub(crate) fn ring(&self, nodes: u64) {
        if nodes == 0 {
            return;
        }
        for (number, bell) in self.bells.iter().enumerate() {
            if number < 64 && nodes >> number & 1 == 1 {
                bell.unpark();
            }
        }
    }

    /// The thread of a node sleeps until its bell rings, or for a second. It may return early.
    pub(crate) fn sleep<R: Wait>(&self, rt: &R, node: u16) {
        self.sleep_for(rt, node, LONGEST);
    }

    /// The same for a millisecond.
    pub(crate) fn doze<R: Wait>(&self, rt: &R, node: u16) {
        self.sleep_for(rt, node, SHORT);
    }

    fn sleep_for<R: Wait>(&self, rt: &R, node: u16, millis: u64) {
        match self.bells.get(usize::from(node)) {
            Some(bell) => bell.park_timeout(rt, Duration::from_millis(millis)),
            None => thread::yield_now(),
        }
    }
}
