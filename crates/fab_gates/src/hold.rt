//! A gate that holds one worker until another has evaluated.

ghost use Rattle.std.specs.Prelude.{◌≡◌};

use crate::gate::{Gate, held_until};
use std::marker::Model;
use std::sync::atomic::{AtomicBool, Ordering};

/// Holds the first evaluation of one worker before it begins, until one of another worker has ended. It is seen as the numbers of the two
/// workers: the one that is held, and the one that is waited for.
#[derive(Drop)]
pub struct HoldGate {
    held: u16,
    until: u16,
    held_came: AtomicBool,
    ended: AtomicBool,
    gave_up: AtomicBool,
}

impl Model for HoldGate {
    ghost use Rattle.std.specs.Prelude.{ℕ};

    ghost Value = { ℕ × ℕ };

    ghost view = { λ gate. (gate.held, gate.until) };
}

impl HoldGate {
    pub fn make(held: u16, until: u16) -> HoldGate
        ensures { result ≡ (held, until) }
    {
        HoldGate {
            held,
            until,
            held_came: AtomicBool::new(false),
            ended: AtomicBool::new(false),
            gave_up: AtomicBool::new(false),
        }
    }

    /// Whether it let go of the one although the other hadn't evaluated.
    pub fn gave_up(&self) -> bool {
        self.gave_up.load(Ordering::SeqCst)
    }
}

impl Gate for HoldGate {
    fn before(&self, worker: u16) {
        let is_first = worker == self.held && !self.held_came.swap(true, Ordering::SeqCst);
        if is_first && !held_until(&self.ended) {
            self.gave_up.store(true, Ordering::SeqCst);
        }
    }

    fn after(&self, worker: u16) {
        if worker == self.until {
            self.ended.store(true, Ordering::SeqCst);
        }
    }
}
