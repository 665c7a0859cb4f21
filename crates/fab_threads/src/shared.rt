//! What lies under the lock.
ghost use Rattle.std.specs.Prelude.{◌≡◌, ℕ, ◌+◌, ◌^◌, ◌<◌, IfOk};
ghost use base.Stored.{Coded-set};
ghost use Rattle.fab_node.specs.contracts.given.Given.{the_row as given_row};
ghost use Rattle.fab_threads.specs.Counts.{JobIsReady, acted, taken};

use crate::name::RunName;
use crate::turning::Turning;
use crate::watch::{Rest, Watch};
use fab_base::NoMemory;
use fab_eval::Done;
use fab_exchange::{Given, Turn};
use fab_tree::resolved::Resolved;
use std::sync::Arc;
use std::sync::ledger::{Book, Share};

/// Nodes have numbers below this.
const NUMBERS: u16 = 64;

/// What a thread does once it has left the lock, beside its turn: it wakes those of these bits, and rests so if it is to wait.
#[derive(Clone, Copy)]
pub struct Aside {
    pub wakes: u64,
    pub rest: Rest,
}

/// What takes turns, of the named start, and the book of its events: as many as the shares of all threads count together. Beside them
/// stands whose threads sleep.
#[derive(Drop)]
pub struct Shared<X: Turning, N: RunName> {
    held: X,
    book: Book<N>,
    watch: Watch,
    ghost given: { X.given held ≡ N.given } by { Coded-set given_row.coded (X.given held) N.given },
    ghost sure: { (n : ℕ) → X.sure held n ≡ N.sure n },
    ghost counted: { X.events held ≡ book.total },
}

impl<X: Turning, N: RunName> Shared<X, N> {
    pub fn new(held: X, book: Book<N>) -> Shared<X, N>
        requires given { X.given held ≡ N.given }
        requires sure { (n : ℕ) → X.sure held n ≡ N.sure n }
        requires counted { X.events held ≡ book.total }
    {
        Shared {
            held,
            book,
            watch: Watch::new(),
        }
    }

    /// The program of the named start.
    pub fn program(&self) -> Result<Arc<Resolved>, NoMemory>
        ensures { IfOk result (λ program. program.value ≡ N.given.program) }
    {
        self.held.program()
    }

    /// A turn of a node, which a thread counts in its share.
    pub fn next(&mut self, node: u16, mine: &mut Share<N>) -> Result<Turn, NoMemory>
        requires part { 0 < mine.old.parts }
        ensures amount { mine.new.amount ≡ mine.old.amount + acted result }
        ensures parts { mine.new.parts ≡ mine.old.parts }
        ensures bound { mine.new.amount < 2 ^ 64 }
        ensures job { IfOk result (JobIsReady N.given.program) }
    {
        let Shared { held, book, .. } = self;
        let turn = held.next(node);
        if let Ok(Turn::Acted) = &turn {
            book.add(mine, 1);
        }
        book.audit(mine);
        let _events = held.len();
        turn
    }

    /// What a node's job came to, brought back, which a thread counts in its share where it is taken.
    pub fn give(&mut self, node: u16, done: &Done, mine: &mut Share<N>) -> Result<Given, NoMemory>
        requires program { done.now.job.program.value ≡ N.given.program }
        requires part { 0 < mine.old.parts }
        ensures amount { mine.new.amount ≡ mine.old.amount + taken result }
        ensures parts { mine.new.parts ≡ mine.old.parts }
        ensures bound { mine.new.amount < 2 ^ 64 }
    {
        let Shared { held, book, .. } = self;
        let given = held.give(node, done);
        if let Ok(Given::Taken) = &given {
            book.add(mine, 1);
        }
        book.audit(mine);
        let _events = held.len();
        given
    }

    /// What is held, of the named start still, whatever came of it.
    pub fn into_held(self) -> X
        ensures given { X.given result ≡ N.given }
        ensures sure { (n : ℕ) → X.sure result n ≡ N.sure n }
    {
        let Shared { held, .. } = self;
        held
    }

    /// What is held, of the named start still, with as many events as a share with every part counts.
    pub fn close(self, all: &mut Share<N>) -> X
        requires { all.old.parts ≡ N.parts }
        ensures given { X.given result ≡ N.given }
        ensures sure { (n : ℕ) → X.sure result n ≡ N.sure n }
        ensures counted { X.events result ≡ all.new.amount }
        ensures same { all.new.amount ≡ all.old.amount }
    {
        let Shared { held, mut book, .. } = self;
        book.audit(all);
        held
    }

    /// A turn of a node, and what its thread does behind it.
    pub fn turn(&mut self, node: u16, mine: &mut Share<N>) -> (Result<Turn, NoMemory>, Aside)
        requires part { 0 < mine.old.parts }
        ensures amount { mine.new.amount ≡ mine.old.amount + acted result.0 }
        ensures parts { mine.new.parts ≡ mine.old.parts }
        ensures bound { mine.new.amount < 2 ^ 64 }
        ensures job { IfOk result.0 (JobIsReady N.given.program) }
    {
        self.watch.comes(node);
        let turn = self.next(node, mine);
        let aside = match &turn {
            Ok(Turn::Wait) => self.waits(node),
            Ok(Turn::Evaluate(_)) => self.evaluates(node),
            _ => Aside {
                wakes: 0,
                rest: Rest::Look,
            },
        };
        (turn, aside)
    }

    /// Those are called whom messages of a node wait for.
    fn call_receivers(&mut self, node: u16) {
        for receiver in 0..NUMBERS {
            if self.watch.is_asleep(receiver) && self.held.reaches(node, receiver) {
                self.watch.call(receiver);
            }
        }
    }

    /// Whether a message waits for a node, or it may give up a store.
    fn has_turn(&self, node: u16) -> bool {
        (0..NUMBERS).any(|other| self.held.reaches(other, node) || self.held.gives_up(node, other))
    }

    /// All are called for whom something is due.
    fn call_all(&mut self) {
        for node in 0..NUMBERS {
            if self.watch.is_asleep(node) && self.has_turn(node) {
                self.watch.call(node);
            }
        }
    }

    /// A thread is about to evaluate: one of those that are called goes on meanwhile.
    fn evaluates(&mut self, node: u16) -> Aside {
        self.call_receivers(node);
        Aside {
            wakes: self.watch.wake(),
            rest: Rest::Look,
        }
    }

    /// A thread is to wait: one of those that are called goes on, and if nobody was called and all others sleep, one of those for whom
    /// something is due.
    fn waits(&mut self, node: u16) -> Aside {
        self.call_receivers(node);
        let mut wakes = self.watch.wake();
        if wakes == 0 && self.watch.is_alone(node) {
            self.call_all();
            wakes = self.watch.wake();
        }
        Aside {
            wakes,
            rest: self.watch.rest(node),
        }
    }

    /// The thread of a node leaves. Those of these bits are to be woken.
    pub fn leave(&mut self, node: u16) -> u64 {
        self.watch.leave(node)
    }
}
