//! What a store is about to do.

ghost use Rattle.std.specs.Prelude.{◌≡◌};

use fab_base::Entry;
use fab_net::Step;
use std::marker::Model;

/// What a store will keep and say: the record, and the same in bytes with what it sends.
#[derive(Debug)]
pub struct StorePlan {
    pub(crate) entry: Option<Entry>,
    pub(crate) step: Step,
}

impl Drop for StorePlan {
    fn drop(self) {
        let StorePlan { entry, step } = self;
    }
}

impl Model for StorePlan {
    ghost use Rattle.fab_store.specs.Stock.{Plan};

    ghost Value = { Plan };

    ghost view = { λ p. record { entry = p.entry; step = p.step } };
}

impl StorePlan {
    /// What is to be written and sent.
    pub fn step(&self) -> &Step
        ensures { result.now ≡ self.now.step }
    {
        &self.step
    }

    /// The record, and what is to be written and sent.
    pub(crate) fn into_parts(self) -> (Option<Entry>, Step)
        ensures { result ≡ (self.entry, self.step) }
    {
        let StorePlan { entry, step } = self;
        (entry, step)
    }
}
