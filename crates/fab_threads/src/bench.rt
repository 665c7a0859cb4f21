//! What evaluates jobs for the calling thread.
ghost use Rattle.std.specs.Prelude.{◌≡◌, All, IfOk, IfSome, None, replicate, slice_index_or};
ghost use Rattle.std.specs.Option.{option_copied};
ghost use Rattle.fab_pauses.specs.Evaluations.{IsOf};
ghost use Rattle.fab_threads.specs.Counts.{IsReady};

use crate::evaluating::evaluate_among;
use fab_base::{NoMemory, Seq};
use fab_eval::{Done, Job};
use fab_gates::Gate;
use fab_pauses::Evaluators;
use fab_pool::Pool;
use fab_tree::resolved::Resolved;
use std::alloc::Global;
use std::marker::Model;
use std::sync::Wait;
use std::thread::Threads;

/// Nodes have numbers below this.
const NUMBERS: u16 = 64;

/// By so many threads jobs are evaluated beside each other.
const WIDTH: u16 = 4;

/// A job with at most so many answers may be evaluated from its start at each of them. That is up to three times what an evaluator does
/// that goes on, and four are evaluated at once.
const FEW: usize = 4;

/// What evaluates for the calling thread: an evaluator for each node, and what the pool made of the node's last job there. Contracts see
/// the program.
#[derive(Drop)]
pub(crate) struct Bench<'a> {
    evaluators: Evaluators<'a>,
    kept: Vec<Option<Done>>,
}

impl<'a> Model for Bench<'a> {
    ghost use Rattle.std.specs.Coded.{codes};
    ghost use Rattle.fab_tree.specs.contracts.resolved.Statement as statements;
    ghost use Rattle.fab_tree.specs.contracts.resolved.Expression as expressions;
    ghost use Rattle.fab_tree.specs.declared.resolved.Resolved.{Resolved};
    ghost use Rattle.fab_threads.specs.Rounds.{AreKept};

    ghost Value = { Resolved };

    ghost coded = { Prim.hlevel (codes, statements.the_row.coded, expressions.the_row.coded) };

    ghost view = { λ b. b.evaluators.program };

    ghost invariant = { λ b. AreKept b.evaluators.program b.kept.items };
}

/// A place for each number, with nothing in it.
fn no_dones(alloc: Global) -> Result<Vec<Option<Done>>, NoMemory>
    ensures { IfOk result (λ dones. dones.items ≡ replicate 64 None) }
{
    let mut dones = Vec::new(alloc);
    'numbers: while dones.len() < usize::from(NUMBERS) {
        dones.push(None)?;
    }
    Ok(dones)
}

/// What stands in a place, if anything does.
fn done_in(dones: &[Option<Done>], place: usize) -> Option<&Done>
    ensures { option_copied result ≡ slice_index_or dones.now place None }
{
    dones.get(place)?.as_ref()
}

/// Whether what is here came of a job of the same attempt.
fn is_of_attempt(done: Option<&Done>, job: &Job) -> bool {
    match done {
        Some(done) => done.job.tid == job.tid,
        None => false,
    }
}

impl<'a> Bench<'a> {
    /// One that has evaluated nothing yet.
    pub(crate) fn new(alloc: Global, program: &'a Resolved) -> Result<Bench<'a>, NoMemory>
        ensures { IfOk result (λ bench. bench ≡ program.now) }
    {
        let evaluators = Evaluators::new(alloc, program)?;
        let kept = no_dones(alloc)?;
        Ok(Bench { evaluators, kept })
    }

    /// What the pool made of a node's last job, if it had one.
    pub(crate) fn kept_of(&self, node: u16) -> Option<&Done>
        ensures { IfSome (option_copied result) (λ done. IsOf self.now done.job) }
    {
        done_in(self.kept.as_slice(), usize::from(node))
    }

    /// Whether a node's own evaluator is to take a job, and not the pool: where its last one is of this attempt, since then it goes on; and
    /// with many answers where the pool's last one is, so that no attempt with many objects is evaluated from its start at each of them.
    pub(crate) fn is_own(&self, node: u16, job: &Job) -> bool {
        is_of_attempt(self.done(node), job)
            || FEW < job.answers.len() && is_of_attempt(self.kept_of(node), job)
    }

    /// Evaluates a job by a node's own evaluator, between a gate's calls.
    pub(crate) fn evaluate<G: Gate>(
        &mut self,
        gate: &G,
        node: u16,
        job: Job,
    ) -> Result<(), NoMemory>
        requires { IsReady self.old job }
        ensures { self.new ≡ self.old }
    {
        evaluate_among(gate, node, &mut self.evaluators, job)
    }

    /// What the last job came to of a node's own evaluator.
    pub(crate) fn done(&self, node: u16) -> Option<&Done>
        ensures { IfSome (option_copied result) (λ done. IsOf self.now done.job) }
    {
        self.evaluators.done(node)
    }

    /// Keeps what the pool made of a job, in the place of its worker.
    fn keep(&mut self, done: Done)
        requires { IsOf self.old done.job }
        ensures { self.new ≡ self.old }
    {
        let place = usize::from(done.job.request.worker);
        if place < self.kept.len() {
            self.kept[place] = Some(done);
        }
    }

    /// Keeps what the pool made of many.
    fn keep_all(&mut self, dones: Seq<Done>)
        requires { All (λ done. IsOf self.old done.job) dones }
        ensures { self.new ≡ self.old }
    {
        for done in dones.into_vec() {
            self.keep(done);
        }
    }

    /// Evaluates jobs beside each other, by the pool, and keeps what they come to.
    pub(crate) fn evaluate_all<R: Threads + Wait + Sync, G: Gate + Sync>(
        &mut self,
        rt: &R,
        alloc: Global,
        jobs: Seq<Job>,
        gate: &G,
    ) -> Result<(), NoMemory>
        requires ready { All (IsReady self.old) jobs }
        ensures { self.new ≡ self.old }
    {
        let dones = Pool::evaluate_all(rt, alloc, jobs, WIDTH, gate)?;
        self.keep_all(dones);
        Ok(())
    }
}
