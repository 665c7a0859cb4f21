//! What threads leave: the calling thread has the jobs of all workers evaluated at once.

use crate::pool_tests::{job_of, program};
use fab_base::NoMemory;
use fab_eval::Done;
use fab_exchange::{Given, Turn};
use fab_gates::{Gate, HoldGate, MeetGate};
use fab_threads::{Turning, finish};
use fab_tree::resolved::Resolved;
use std::alloc::{AllocError, Global};
use std::sync::{Arc, Wait};
use std::test::Fail;
use std::thread::Threads;

/// Two workers, 0 and 1, each of which has a job until what it came to was brought. Nothing else is due.
#[derive(Drop)]
struct Two {
    alloc: Global,
    program: Arc<Resolved>,
    first: u32,
    second: u32,
}

fn both_waiting(alloc: Global) -> Result<Two, NoMemory> {
    let program = Arc::new(alloc, program(alloc))?;
    Ok(Two {
        alloc,
        program,
        first: 0,
        second: 0,
    })
}

impl Turning for Two {
    ghost use Rattle.std.specs.Prelude.{◌+◌, true, []};

    ghost given = { λ t. record { program = t.program.value; rights = record { workers = 0; stores = 0; classes = [] }; roots = [] } };

    ghost sure = { λ t n. true };

    ghost events = { λ t. t.first + t.second };

    ghost over = { λ t. Unit {0} };

    fn len(&self) -> usize {
        self.first as usize + self.second as usize
    }

    fn program(&self) -> Result<Arc<Resolved>, NoMemory> {
        self.program.clone()
    }

    fn next(&mut self, node: u16) -> Result<Turn, NoMemory> {
        match node {
            0 if self.first == 0 => Ok(Turn::Evaluate(job_of(self.alloc, &self.program, 0, 1)?)),
            1 if self.second == 0 => Ok(Turn::Evaluate(job_of(self.alloc, &self.program, 1, 1)?)),
            _ if self.first == 1 && self.second == 1 => Ok(Turn::Over),
            _ => Ok(Turn::Wait),
        }
    }

    fn give(&mut self, node: u16, _done: &Done) -> Result<Given, NoMemory> {
        match node {
            0 if self.first == 0 => {
                self.first = 1;
                Ok(Given::Taken)
            }
            1 if self.second == 0 => {
                self.second = 1;
                Ok(Given::Taken)
            }
            _ => Ok(Given::Stale),
        }
    }

    fn reaches(&self, _sender: u16, _receiver: u16) -> bool {
        false
    }

    fn gives_up(&self, _worker: u16, _store: u16) -> bool {
        false
    }
}

/// How many events come of both workers' jobs.
fn events_of_two<R: Threads + Wait + Sync, G: Gate + Sync>(
    rt: &R,
    alloc: Global,
    gate: &G,
) -> Result<u64, NoMemory> {
    match finish(rt, alloc, both_waiting(alloc)?, gate) {
        Ok((_two, events)) => Ok(events),
        Err(_two) => Err(AllocError),
    }
}

#[test]
fn what_is_left_is_evaluated_at_once(rt: HostRuntime) -> Result<(), Fail> {
    let gate = MeetGate::make(0, 1);
    assert!(rt; events_of_two(&rt, rt.alloc(), &gate)? == 2);
    assert!(rt; !gate.gave_up());
    Ok(())
}

#[test]
fn the_least_worker_may_be_evaluated_last(rt: HostRuntime) -> Result<(), Fail> {
    let gate = HoldGate::make(0, 1);
    assert!(rt; events_of_two(&rt, rt.alloc(), &gate)? == 2);
    assert!(rt; !gate.gave_up());
    Ok(())
}
