//! A pool: jobs are evaluated beside each other, and what they come to stands in their order.
ghost use Rattle.std.specs.Prelude.{◌≡◌, ◌<◌, ◌≤◌, All, IfOk};
ghost use Rattle.fab_pool.specs.Jobs.{IsReady};

use fab_base::{NoMemory, Seq, Tid};
use fab_eval::{Done, Job};
use fab_gates::{Gate, HoldGate, MeetGate, OpenGate};
use fab_pool::Pool;
use fab_tree::resolved::{Request, Resolved};
use std::alloc::Global;
use std::sync::{Arc, Wait};
use std::test::Fail;
use std::thread::Threads;

/// A program without a method.
pub(crate) fn program(alloc: Global) -> Resolved {
    Resolved {
        nodes: Seq::new(alloc),
        pairs: Seq::new(alloc),
        labels: Seq::new(alloc),
        classes: Seq::new(alloc),
        methods: Seq::new(alloc),
        roots: Seq::new(alloc),
        sessions: Seq::new(alloc),
        posts: Seq::new(alloc),
        crashes: Seq::new(alloc),
        cache: 0,
        schedule: Seq::new(alloc),
    }
}

pub(crate) fn job_of(
    alloc: Global,
    program: &Arc<Resolved>,
    worker: u16,
    number: u32,
) -> Result<Job, NoMemory>
    ensures ready { IfOk result IsReady }
    ensures program { IfOk result (λ job. job.program.value ≡ program.now.value) }
{
    let program = program.clone()?;
    Ok(Job {
        program,
        request: Request {
            worker,
            number,
            method: 0,
            args: Seq::new(alloc),
        },
        tid: Tid {
            worker,
            boot: 1,
            number: 1,
        },
        answers: Seq::new(alloc),
    })
}

/// A job for each of these workers, with numbers from 0.
fn jobs_of(alloc: Global, workers: &[u16]) -> Result<Seq<Job>, NoMemory>
    ensures { IfOk result (All IsReady) }
{
    let program = Arc::new(alloc, program(alloc))?;
    let mut jobs = Vec::new(alloc);
    let mut number = 0_u32;
    for worker in workers {
        jobs.push(job_of(alloc, &program, *worker, number)?)?;
        number = number.wrapping_add(1);
    }
    Ok(Seq::from_vec(jobs))
}

/// Evaluates a job for each of these workers, by so many threads, and tells whether each has its answer in its place.
fn are_in_order<R: Threads + Wait + Sync, G: Gate + Sync>(
    rt: &R,
    alloc: Global,
    workers: &[u16],
    width: u16,
    gate: &G,
) -> Result<bool, NoMemory>
    requires { (0 < width) × (width ≤ 32) }
{
    let jobs = jobs_of(alloc, workers)?;
    let dones = Pool::evaluate_all(rt, alloc, jobs, width, gate)?;
    let mut number = 0_u32;
    for done in dones.as_slice() {
        if done.job.request.number != number {
            return Ok(false);
        }
        number = number.wrapping_add(1);
    }
    Ok(number as usize == workers.len())
}

#[test]
fn two_are_evaluated_at_once(rt: HostRuntime) -> Result<(), Fail> {
    let gate = MeetGate::make(0, 1);
    assert!(rt; are_in_order(&rt, rt.alloc(), &[0, 1], 2, &gate)?);
    assert!(rt; !gate.gave_up());
    Ok(())
}

#[test]
fn the_first_may_end_last(rt: HostRuntime) -> Result<(), Fail> {
    let gate = HoldGate::make(3, 2);
    assert!(rt; are_in_order(&rt, rt.alloc(), &[3, 0, 1, 0, 2], 2, &gate)?);
    assert!(rt; !gate.gave_up());
    Ok(())
}

#[test]
fn any_number_of_jobs_will_do(rt: HostRuntime) -> Result<(), Fail> {
    assert!(rt; are_in_order(&rt, rt.alloc(), &[], 1, &OpenGate)?);
    assert!(rt; are_in_order(&rt, rt.alloc(), &[5], 32, &OpenGate)?);
    assert!(rt; are_in_order(&rt, rt.alloc(), &[1; 100], 3, &OpenGate)?);
    Ok(())
}
