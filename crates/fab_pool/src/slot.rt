//! A job that waits, and what came of it.
ghost use Rattle.std.specs.Prelude.{◌≡◌, IfOk};
ghost use Rattle.fab_eval.specs.declared.job.Job.{Job as AnyJob};
ghost use Rattle.fab_pool.specs.Jobs.{IsCopy, IsReady};

use crate::copies::{copy_of_job, done_of};
use fab_base::NoMemory;
use fab_eval::{Done, Job, evaluate};
use fab_gates::Gate;
use std::alloc::{AllocError, Global};
use std::marker::Model;

/// What has a job, a copy of which threads evaluate. They know no more of it, so nothing else has to be said across threads.
pub(crate) trait Waiting {
    ghost job: { Self → AnyJob };

    /// What a copy of the job comes to.
    fn evaluate_copy<G: Gate>(&self, alloc: Global, gate: &G) -> Result<Done, NoMemory>
        ensures { IfOk result (λ done. IsCopy (job self.now) done.job) };
}

/// A job, and what a copy of it came to, if that is here. Contracts see the job.
#[derive(Drop)]
pub(crate) struct Slot {
    job: Job,
    done: Option<Done>,
}

impl Model for Slot {
    ghost use Rattle.std.specs.Coded.{codes};
    ghost use Rattle.fab_eval.specs.declared.job.Job.{Job};
    ghost use Rattle.fab_tree.specs.contracts.resolved.Statement as statements;
    ghost use Rattle.fab_tree.specs.contracts.resolved.Expression as expressions;
    ghost use Rattle.fab_pool.specs.Jobs.{IsKept};

    ghost Value = { Job };

    ghost coded = { Prim.hlevel (codes, statements.the_row.coded, expressions.the_row.coded) };

    ghost view = { λ s. s.job };

    ghost invariant = { λ s. IsKept s.job s.done };
}

/// What a job comes to, between a gate's calls, by the thread that is here.
fn evaluate_here<G: Gate>(alloc: Global, gate: &G, job: Job) -> Result<Done, NoMemory>
    requires { IsReady job }
    ensures { IfOk result (λ done. done.job ≡ job) }
{
    let worker = job.request.worker;
    gate.before(worker);
    let done = evaluate(alloc, job);
    gate.after(worker);
    done.map_err(|_| AllocError)
}

impl Slot {
    pub(crate) fn new(job: Job) -> Slot
        requires { IsReady job }
        ensures { result ≡ job }
    {
        Slot { job, done: None }
    }

    /// Keeps what a copy came to.
    pub(crate) fn put(&mut self, done: Done)
        requires { IsCopy self.old done.job }
        ensures { self.new ≡ self.old }
    {
        self.done = Some(done);
    }

    /// What the job comes to. It is evaluated here, if it wasn't.
    pub(crate) fn finish<G: Gate>(self, alloc: Global, gate: &G) -> Result<Done, NoMemory>
        ensures { IfOk result (λ done. done.job ≡ self) }
    {
        let Slot { job, done } = self;
        match done {
            Some(done) => Ok(done_of(job, done)),
            None => evaluate_here(alloc, gate, job),
        }
    }
}

impl Waiting for Slot {
    ghost job = { λ s. s };

    fn evaluate_copy<G: Gate>(&self, alloc: Global, gate: &G) -> Result<Done, NoMemory> {
        let copy = copy_of_job(alloc, &self.job)?;
        evaluate_here(alloc, gate, copy)
    }
}
