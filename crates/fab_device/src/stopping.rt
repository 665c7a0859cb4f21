//! The calls of a journal of which one fails, and so do all behind it.
ghost use Rattle.std.specs.Prelude.{◌≡◌, ◌↔◌, IsTrue};
ghost use Rattle.fab_base.specs.Faults.{CountsFault, after_call, opening_calls};
ghost use Rattle.fab_device.specs.Devices.{FailsNext};

use fab_base::{FailingCalls, Seq};
use std::marker::Model;

/// Which calls fail: of those that are listed, counted from 1, the first that comes, and all behind it.
#[derive(Debug, Drop)]
pub struct StoppingCalls {
    calls: FailingCalls,
    faults: u64,
}

impl Model for StoppingCalls {
    ghost use Rattle.fab_base.specs.Faults.{Calls};

    ghost Value = { Calls };

    ghost view = { λ c. record { made = c.calls.made; fails = c.calls.fails; faults = c.faults } };
}

impl StoppingCalls {
    pub fn new(fails: Seq<u32>) -> StoppingCalls
        ensures { result ≡ opening_calls fails }
    {
        StoppingCalls {
            calls: FailingCalls::new(fails),
            faults: 0,
        }
    }

    /// Counts a call, and answers whether it fails.
    pub fn count(&mut self) -> bool
        ensures listed { IsTrue result ↔ FailsNext self.old }
        ensures counted { self.new ≡ after_call result self.old }
        ensures cause { CountsFault result self.old.faults self.new.faults }
    {
        let listed = self.calls.count();
        let fails = listed || self.faults > 0;
        if fails {
            self.faults = self.faults.saturating_add(1);
        }
        fails
    }

    /// How many calls were made; it stays at 4,294,967,295 once it is there.
    pub fn made(&self) -> u32
        ensures { result ≡ self.now.made }
    {
        self.calls.made()
    }
}
