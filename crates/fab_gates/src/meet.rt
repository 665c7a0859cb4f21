//! A gate at which two workers meet.

ghost use Rattle.std.specs.Prelude.{◌≡◌};

use crate::gate::{Gate, held_until};
use std::marker::Model;
use std::sync::atomic::{AtomicBool, Ordering};

/// Holds the first evaluation of each of two workers before it begins, until that of the other is about to begin, too. So both are under
/// way at once. It is seen as the numbers of the two workers.
#[derive(Drop)]
pub struct MeetGate {
    one: u16,
    other: u16,
    one_came: AtomicBool,
    other_came: AtomicBool,
    gave_up: AtomicBool,
}

impl Model for MeetGate {
    ghost use Rattle.std.specs.Prelude.{ℕ};

    ghost Value = { ℕ × ℕ };

    ghost view = { λ gate. (gate.one, gate.other) };
}

impl MeetGate {
    pub fn make(one: u16, other: u16) -> MeetGate
        ensures { result ≡ (one, other) }
    {
        MeetGate {
            one,
            other,
            one_came: AtomicBool::new(false),
            other_came: AtomicBool::new(false),
            gave_up: AtomicBool::new(false),
        }
    }

    /// Whether it let go of a worker to which the other hadn't come.
    pub fn gave_up(&self) -> bool {
        self.gave_up.load(Ordering::SeqCst)
    }

    fn hold_until(&self, flag: &AtomicBool) {
        if !held_until(flag) {
            self.gave_up.store(true, Ordering::SeqCst);
        }
    }
}

impl Gate for MeetGate {
    fn before(&self, worker: u16) {
        let is_one = worker == self.one && !self.one_came.swap(true, Ordering::SeqCst);
        let is_other = worker == self.other && !self.other_came.swap(true, Ordering::SeqCst);
        if is_one {
            self.hold_until(&self.other_came);
        }
        if is_other {
            self.hold_until(&self.one_came);
        }
    }

    fn after(&self, _worker: u16) {}
}
