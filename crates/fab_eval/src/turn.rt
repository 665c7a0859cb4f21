//! Jobs, from the start to the first object that lacks, and from there on.
ghost use Rattle.std.specs.Prelude.{◌≡◌, ℕ, false, IfErr, IfOk};
ghost use Rattle.std.specs.List.{IsDistinct, list_any};
ghost use Rattle.fab_base.specs.FlatMap.{is_same};
ghost use Rattle.fab_nested.specs.Nested.{names_of};
ghost use Rattle.fab_eval.specs.Attempts.{is_made_in};
ghost use Rattle.fab_eval.specs.declared.job.Outcome.TheVariants.{Need};
ghost use Rattle.fab_base.specs.declared.object.Object.{Object as AnyObject};
ghost use Rattle.fab_base.specs.declared.object.Oid.{Oid as AnyOid};
ghost use Rattle.fab_eval.specs.declared.job.Job.{Job as AnyJob};
ghost use Rattle.fab_eval.specs.Answered.{answered};
ghost use Rattle.fab_eval.specs.Pauses.{Resumes};
ghost use Rattle.fab_eval.specs.Founds.{IsFound};
ghost use Rattle.fab_eval.specs.Turns.{Turns};

use crate::done::Done;
use crate::found::{At, Found, from_start, with_answer};
use crate::job::{EvalRefused, Job};
use fab_base::{Object, Oid, Seq};
use fab_tree::resolved::Resolved;
use std::alloc::Global;
use std::marker::Model;
use std::mem;

/// A job that needs an object, and is done so far; with what is left of it, unless that was given up
/// for want of memory.
#[derive(Drop)]
pub struct Paused<'a> {
    alloc: Global,
    program: &'a Resolved,
    done: Done,
    site: u16,
    oid: Oid,
    at: Option<At<'a>>,
}

impl<'a> Model for Paused<'a> {
    ghost use Rattle.std.specs.Coded.{codes};
    ghost use Rattle.fab_tree.specs.contracts.resolved.Statement as statements;
    ghost use Rattle.fab_tree.specs.contracts.resolved.Expression as expressions;
    ghost use Rattle.fab_eval.specs.Answered.{Pending};

    ghost Value = { Pending };

    ghost coded = { Prim.hlevel (codes, statements.the_row.coded, expressions.the_row.coded) };

    ghost use Rattle.fab_eval.specs.Pauses.{IsPaused};

    ghost view = { λ p. record { job = p.done.job; site = p.site; oid = p.oid } };

    ghost invariant = { λ p. IsPaused p.program.now p.done p.site p.oid p.at };
}

/// A job so far: it is done, or it needs an object to go on.
#[derive(Drop)]
pub enum Turn<'a> {
    Done(Done),
    Paused(Paused<'a>),
}

/// Want of memory, with the job as it stood. It goes on from its start.
#[derive(Drop)]
pub struct PausedRefused<'a> {
    pub paused: Paused<'a>,
}

/// Evaluates a job from its start.
pub fn start<'a>(alloc: Global, program: &'a Resolved, job: Job) -> Result<Turn<'a>, EvalRefused>
    requires program { program.now ≡ job.program.value }
    requires distinct { IsDistinct is_same (names_of job.answers) }
    requires made_before { list_any (λ a. is_made_in job.tid a.0) job.answers ≡ false }
    ensures turn { IfOk result (Turns job) }
    ensures refused { IfErr result (λ e. e.job ≡ job) }
{
    match from_start(alloc, program, &job) {
        Ok(found) => Ok(turned(alloc, program, job, found)),
        Err(_) => Err(EvalRefused { job }),
    }
}

/// A job with what was found of it.
fn turned<'a>(alloc: Global, program: &'a Resolved, job: Job, found: Found<'a>) -> Turn<'a>
    requires program { program.now ≡ job.program.value }
    requires distinct { IsDistinct is_same (names_of job.answers) }
    requires made_before { list_any (λ a. is_made_in job.tid a.0) job.answers ≡ false }
    requires found { IsFound job found }
    ensures { Turns job result }
{
    let Found {
        outcome,
        touches,
        downs,
        at,
    } = found;
    let done = Done {
        job,
        outcome,
        touches,
        downs,
    };
    match at {
        None => Turn::Done(done),
        Some(at) => Turn::Paused(Paused {
            alloc,
            program,
            done,
            site: at.site,
            oid: at.oid,
            at: Some(at),
        }),
    }
}

impl<'a> Paused<'a> {
    /// The object that it needs, and the site that needs it.
    pub fn need(&self) -> (u16, Oid)
        ensures site { result.0 ≡ self.now.site }
        ensures oid { result.1 ≡ self.now.oid }
    {
        (self.site, self.oid)
    }

    /// The job so far.
    pub fn done(&self) -> &Done
        ensures job { result.now.job ≡ self.now.job }
        ensures outcome { result.now.outcome ≡ Need self.now.site self.now.oid }
    {
        &self.done
    }

    /// The job so far, where nobody goes on with it.
    pub fn into_done(self) -> Done
        ensures job { result.job ≡ self.entry.job }
        ensures outcome { result.outcome ≡ Need self.entry.site self.entry.oid }
    {
        let Paused {
            alloc: _,
            program: _,
            done,
            site: _,
            oid: _,
            at: _,
        } = self;
        done
    }

    /// Goes on with an answer: what `start` gives for the job with this answer added last.
    pub fn go_on(self, version: u32, object: Object) -> Result<Turn<'a>, PausedRefused<'a>>
        requires { is_made_in self.job.tid self.oid ≡ false }
        ensures turn { IfOk result (Turns (answered self.entry.oid version object self.entry.job)) }
        ensures refused { IfErr result (λ e. e.paused ≡ self.entry) }
    {
        let Paused {
            alloc,
            program,
            done,
            site,
            oid,
            at,
        } = self;
        let Done {
            job,
            outcome,
            touches,
            downs,
        } = done;
        match gone_on(alloc, program, job, at, oid, version, object) {
            Ok(turn) => Ok(turn),
            Err(EvalRefused { job }) => Err(PausedRefused {
                paused: Paused {
                    alloc,
                    program,
                    done: Done {
                        job,
                        outcome,
                        touches,
                        downs,
                    },
                    site,
                    oid,
                    at: None,
                },
            }),
        }
    }
}

/// Goes on with an answer, from what is kept of a job or from its start.
fn gone_on<'a>(
    alloc: Global,
    program: &'a Resolved,
    job: Job,
    at: Option<At<'a>>,
    oid: Oid,
    version: u32,
    object: Object,
) -> Result<Turn<'a>, EvalRefused>
    requires program { program.now ≡ job.program.value }
    requires distinct { IsDistinct is_same (names_of (answered oid version object job).answers) }
    requires made_before { list_any (λ a. is_made_in job.tid a.0) (answered oid version object job).answers ≡ false }
    requires resumes { Resumes (answered oid version object job) oid version object at }
    ensures turn { IfOk result (Turns (answered oid version object job)) }
    ensures refused { IfErr result (λ e. e.job ≡ job) }
{
    let mut job = job;
    let Ok(copy) = object.copy(alloc) else {
        return Err(EvalRefused { job });
    };
    if job.answers.push((oid, version, object)).is_err() {
        return Err(EvalRefused { job });
    }
    match with_answer(alloc, program, &job, at, oid, version, copy) {
        Ok(found) => Ok(turned(alloc, program, job, found)),
        Err(_) => Err(EvalRefused {
            job: without_last(alloc, job),
        }),
    }
}

/// A job without its last answer.
fn without_last(alloc: Global, job: Job) -> Job
    ensures { (oid : AnyOid) (version : ℕ) (object : AnyObject) (before : AnyJob) → job ≡ answered oid version object before → result ≡ before }
{
    let mut job = job;
    let mut answers = mem::replace(&mut job.answers, Seq::new(alloc)).into_vec();
    answers.pop();
    job.answers = Seq::from_vec(answers);
    job
}
