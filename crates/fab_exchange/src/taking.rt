//! Whose turn it is, and what comes of it.
ghost use Rattle.std.specs.Prelude.{◌≡◌, IfOk, OnErr};
ghost use Rattle.fab_exchange.specs.Turns.{AreAsSure, Gives, IsStale, IsStill, NoneCame, Turns};

use crate::exchange::Exchange;
use crate::found::Found;
use crate::turn::{Given, Turn};
use fab_base::NoMemory;
use fab_device::Journal;
use fab_eval::Done;
use fab_net::{Event, Inner};

impl<J: Journal> Exchange<J> {
    /// An event of a node comes that is due; or its evaluation is asked for, whose end is due; or it is to wait, exactly where none
    /// of it is due and one of another node is; or all is over, exactly where none is due at all. But for an event, nothing changes.
    /// What an evaluation came to is taken by `give` alone, so none has to be made under a lock.
    pub fn next(&mut self, node: u16) -> Result<Turn, NoMemory>
        ensures given { self.new.given ≡ self.old.given }
        ensures turns { IfOk result (Turns node self.old self.new) }
        ensures still { IfOk result (λ turn. IsStill turn → self.new ≡ self.old) }
        ensures memory { OnErr result (NoneCame node self.old self.new) }
        ensures sure { AreAsSure self.old.journals self.new.journals }
    {
        self.core.is_a_run();
        match self.found(node) {
            Some(Found::Crash) => {
                self.enact(Event::Crash(node), None)?;
                Ok(Turn::Acted)
            }
            Some(Found::Evaluation) => match self.core.job(node)? {
                Some(job) => Ok(Turn::Evaluate(job)),
                None => unreachable!(),
            },
            Some(Found::Does(inner)) => {
                self.does(inner, None)?;
                Ok(Turn::Acted)
            }
            Some(Found::Post(sender)) => {
                self.enact(Event::Post(sender), None)?;
                Ok(Turn::Acted)
            }
            None if self.is_some_due() => Ok(Turn::Wait),
            None => {
                self.core.goes_on();
                Ok(Turn::Over)
            }
        }
    }

    /// What a worker's job came to is taken, and the worker goes on. It isn't exactly where it isn't what the worker has to evaluate, and
    /// then nothing changes. The job is compared under the lock and not copied.
    pub fn give(&mut self, node: u16, done: &Done) -> Result<Given, NoMemory>
        requires program { done.now.job.program.value ≡ self.old.given.program }
        ensures given { self.new.given ≡ self.old.given }
        ensures gives { IfOk result (Gives node done.now self.old self.new) }
        ensures stale { IfOk result (λ given. IsStale given → self.new ≡ self.old) }
        ensures memory { OnErr result (NoneCame node self.old self.new) }
        ensures sure { AreAsSure self.old.journals self.new.journals }
    {
        if !self.core.is_current(node, &done.job) {
            return Ok(Given::Stale);
        }
        self.does(Inner::Resume(node), Some(done))?;
        Ok(Given::Taken)
    }
}
