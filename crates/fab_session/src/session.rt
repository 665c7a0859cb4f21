//! Which request a worker is at, which attempt and which try, and how its requests ended.
ghost use Rattle.std.specs.Prelude.{◌≡◌, ◌+◌, ◌<◌, ◌≤◌, ◌==◌, ◌++◌, ◌∷◌, [], length, IfOk};
ghost use Rattle.fab_session.specs.Sittings.{next_request, outcome_of, tid_of};

use fab_base::{NoMemory, Tid};
use fab_net::ReqOutcome;
use std::alloc::Global;
use std::marker::Model;

/// A request ends in a conflict at so many tries in a row.
const MOST_TRIES: u32 = 8;

/// A worker's place among its requests: its boot, the number of its last attempt in this boot, the
/// tries at the request that has no outcome yet, and the outcomes of those before it. There is room
/// for the outcome of every request, so none of them takes memory.
#[derive(Debug, Drop)]
pub struct Session {
    worker: u16,
    boot: u32,
    number: u32,
    tries: u32,
    requests: u32,
    outcomes: Vec<ReqOutcome>,
}

impl Model for Session {
    ghost use Rattle.std.specs.Prelude.{◌≤◌, vec_capacity, vec_len};
    ghost use Rattle.fab_session.specs.Sittings.{HasRoom, Sitting};

    ghost Value = { Sitting };

    ghost view = { λ s. record {
      worker = s.worker;
      boot = s.boot;
      number = s.number;
      tries = s.tries;
      requests = s.requests;
      outcomes = s.outcomes.items;
    } };

    ghost invariant = { λ s. HasRoom s.requests (vec_len s.outcomes) (vec_capacity s.outcomes) };
}

impl Session {
    /// A session of so many requests, none of which was tried.
    pub fn make(alloc: Global, worker: u16, boot: u32, requests: u32) -> Result<Session, NoMemory>
        ensures session { IfOk result (λ s. s ≡ record { worker = worker; boot = boot; number = 0; tries = 0; requests = requests; outcomes = [] }) }
    {
        Ok(Session {
            worker,
            boot,
            number: 0,
            tries: 0,
            requests,
            outcomes: Vec::with_capacity(alloc, requests as usize)?,
        })
    }

    /// The number, from 1, of the first request that has no outcome.
    pub fn next_request(&self) -> Option<u32>
        ensures request { result ≡ next_request self.now }
    {
        let ended = self.outcomes.len();
        if ended < self.requests as usize {
            Some(ended as u32 + 1)
        } else {
            None
        }
    }

    /// Begins an attempt at the next request, and names it.
    pub fn begin_attempt(&mut self) -> Tid
        requires left { length self.old.outcomes < self.old.requests }
        requires number { self.old.number < 4294967295 }
        ensures session { self.new ≡ record self.old { number = self.old.number + 1 } }
        ensures tid { result ≡ tid_of self.new }
    {
        self.number += 1;
        self.tid()
    }

    /// The attempt that was begun last in this boot, of number 0 before the first.
    pub fn tid(&self) -> Tid
        ensures tid { result ≡ tid_of self.now }
    {
        Tid {
            worker: self.worker,
            boot: self.boot,
            number: self.number,
        }
    }

    /// Counts a try that ended by a No vote or a missing object: whether it was the last that the
    /// request has.
    pub fn try_ended(&mut self) -> bool
        requires tries { self.old.tries < 8 }
        ensures session { self.new ≡ record self.old { tries = self.old.tries + 1 } }
        ensures last { result ≡ (self.new.tries == 8) }
    {
        self.tries += 1;
        self.tries == MOST_TRIES
    }

    /// How many tries at the next request ended so far.
    pub fn tries(&self) -> u32
        ensures tries { result ≡ self.now.tries }
    {
        self.tries
    }

    /// Gives the next request its outcome. It takes no memory.
    pub fn close(&mut self, outcome: ReqOutcome)
        requires left { length self.old.outcomes < self.old.requests }
        ensures session { self.new ≡ record self.old { tries = 0; outcomes = self.old.outcomes ++ outcome ∷ [] } }
    {
        let _ = self.outcomes.push(outcome);
        self.tries = 0;
    }

    /// How a request ended, if it has.
    pub fn outcome(&self, request: u32) -> Option<ReqOutcome>
        ensures outcome { result ≡ outcome_of self.now.outcomes request }
    {
        if request == 0 {
            return None;
        }
        self.outcomes.get(request as usize - 1).copied()
    }

    /// The worker's boot.
    pub fn boot(&self) -> u32
        ensures boot { result ≡ self.now.boot }
    {
        self.boot
    }

    /// How the requests ended, in order.
    pub fn outcomes(&self) -> &[ReqOutcome]
        ensures all { result.now ≡ self.now.outcomes }
        ensures few { length self.now.outcomes ≤ self.now.requests }
    {
        self.outcomes.as_slice()
    }
}
