//! An exchange of which a follower is told.
ghost use Rattle.std.specs.Prelude.{◌≡◌, ℕ, ◌+◌, length, IfOk};
ghost use Rattle.fab_core.specs.Cores.{slot};
ghost use Rattle.fab_core.specs.Moved.{sure_in};
ghost use Rattle.fab_threads.specs.Dones.{IsDone};

use crate::board::Board;
use fab_base::NoMemory;
use fab_device::Journal;
use fab_eval::Done;
use fab_exchange::{Exchange, Given, Turn};
use fab_threads::Turning;
use fab_tree::resolved::Resolved;
use std::alloc::Global;
use std::sync::{Arc, Wait};

/// An exchange, whose commits are left on a board. So many of its events were told there.
#[derive(Drop)]
pub(crate) struct Watched<'a, J: Journal> {
    exchange: Exchange<J>,
    alloc: Global,
    board: &'a Board,
    told: usize,
}

impl<'a, J: Journal + Drop> Watched<'a, J> {
    /// Nothing was told yet.
    pub(crate) fn new(alloc: Global, exchange: Exchange<J>, board: &'a Board) -> Watched<'a, J>
        ensures { result.exchange ≡ exchange }
    {
        Watched {
            exchange,
            alloc,
            board,
            told: 0,
        }
    }

    /// Tells of the events that came since it last did; where that doesn't go, it is made up for later.
    fn tell(&mut self)
        ensures { self.new.exchange ≡ self.old.exchange }
    {
        let log = self.exchange.core().log();
        let many = log.len();
        let news = log.get(self.told..).unwrap_or(&[]);
        if self.board.tell(self.alloc, news) {
            self.told = many;
        }
    }

    /// Tells of the last events, and that no more will come. The exchange, taken out.
    pub(crate) fn close<R: Wait>(self, rt: &R) -> Exchange<J>
        ensures { result ≡ self.entry.exchange }
    {
        let Watched {
            exchange,
            alloc,
            board,
            told,
        } = self;
        let news = exchange.core().log().get(told..).unwrap_or(&[]);
        board.close(rt, alloc, news);
        exchange
    }
}

impl<'a, J: Journal + Drop> Turning for Watched<'a, J> {
    ghost given = { λ x. x.exchange.given };

    ghost sure = { λ x n. sure_in (slot x.exchange.journals n) };

    ghost events = { λ x. length x.exchange.moves };

    ghost over = { λ x. IsDone x.exchange.given x.exchange.moves };

    fn len(&self) -> usize {
        Turning::len(&self.exchange)
    }

    fn program(&self) -> Result<Arc<Resolved>, NoMemory> {
        Turning::program(&self.exchange)
    }

    fn next(&mut self, node: u16) -> Result<Turn, NoMemory> {
        let turn = Turning::next(&mut self.exchange, node);
        self.tell();
        turn
    }

    fn give(&mut self, node: u16, done: &Done) -> Result<Given, NoMemory> {
        let given = Turning::give(&mut self.exchange, node, done);
        self.tell();
        given
    }

    fn reaches(&self, sender: u16, receiver: u16) -> bool {
        Turning::reaches(&self.exchange, sender, receiver)
    }

    fn gives_up(&self, worker: u16, store: u16) -> bool {
        Turning::gives_up(&self.exchange, worker, store)
    }
}
