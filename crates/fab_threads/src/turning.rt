//! What takes turns.
ghost use Rattle.std.specs.Prelude.{◌≡◌, ℕ, ◌+◌, Bool, length, IfOk};
ghost use Rattle.fab_core.specs.Cores.{slot};
ghost use Rattle.fab_core.specs.Moved.{sure_in};
ghost use Rattle.fab_node.specs.Standing.{GivenModel};
ghost use Rattle.fab_threads.specs.Counts.{JobIsReady, OnOver, acted, taken};
ghost use Rattle.fab_threads.specs.Dones.{IsDone};

use fab_base::NoMemory;
use fab_device::Journal;
use fab_eval::Done;
use fab_exchange::{Exchange, Given, Turn};
use fab_net::Event;
use fab_tree::resolved::Resolved;
use std::sync::Arc;

/// What takes turns and counts its events, of nodes that were given something, some of whose journals never fail. It is what threads
/// hand to each other, so nothing else of an exchange has to be said across threads.
pub trait Turning: Drop {
    /// What the nodes were given.
    ghost given: { Self → GivenModel };

    /// Which nodes have journals that never fail.
    ghost sure: { Self → ℕ → Bool };

    /// How many events have come.
    ghost events: { Self → ℕ };

    /// Nothing is due any more.
    ghost over: { Self → Type 0 };

    fn len(&self) -> usize
        ensures { result ≡ events self.now };

    /// The program that the nodes were given.
    fn program(&self) -> Result<Arc<Resolved>, NoMemory>
        ensures { IfOk result (λ program. program.value ≡ (given self.now).program) };

    /// A turn of a node.
    fn next(&mut self, node: u16) -> Result<Turn, NoMemory>
        ensures given { given self.new ≡ given self.old }
        ensures sure { (n : ℕ) → sure self.new n ≡ sure self.old n }
        ensures counted { events self.new ≡ events self.old + acted result }
        ensures job { IfOk result (JobIsReady (given self.old).program) }
        ensures over { IfOk result (λ turn. OnOver turn (over self.new)) };

    /// What a node's job came to, brought back.
    fn give(&mut self, node: u16, done: &Done) -> Result<Given, NoMemory>
        requires { done.now.job.program.value ≡ (given self.old).program }
        ensures given { given self.new ≡ given self.old }
        ensures sure { (n : ℕ) → sure self.new n ≡ sure self.old n }
        ensures counted { events self.new ≡ events self.old + taken result };

    /// Whether a message of one node waits for another. It tells whom to wake, and no clause rests on it.
    fn reaches(&self, sender: u16, receiver: u16) -> bool;

    /// Whether a worker may give up waiting for a store, for the same.
    fn gives_up(&self, worker: u16, store: u16) -> bool;
}

impl<J: Journal + Drop> Turning for Exchange<J> {
    ghost given = { λ x. x.given };

    ghost sure = { λ x n. sure_in (slot x.journals n) };

    ghost events = { λ x. length x.moves };

    ghost over = { λ x. IsDone x.given x.moves };

    #[tactic(auto, using(crate::proofs::Logs::length_logs))]
    fn len(&self) -> usize {
        self.core().log().len()
    }

    fn program(&self) -> Result<Arc<Resolved>, NoMemory> {
        self.core().start().clone()
    }

    fn next(&mut self, node: u16) -> Result<Turn, NoMemory> {
        Exchange::next(self, node)
    }

    fn give(&mut self, node: u16, done: &Done) -> Result<Given, NoMemory> {
        Exchange::give(self, node, done)
    }

    fn reaches(&self, sender: u16, receiver: u16) -> bool {
        self.core().may_whole(Event::Deliver(sender, receiver))
    }

    fn gives_up(&self, worker: u16, store: u16) -> bool {
        self.core().may_whole(Event::Idle(worker, store))
    }
}
