//! An evaluator of one job after the other.
ghost use Rattle.std.specs.Prelude.{◌≡◌, ◌++◌, ◌∷◌, [], ℕ, false, None, Some, IfErr, IfOk, IfSome, OnErr};
ghost use Rattle.std.specs.List.{IsDistinct, list_any};
ghost use Rattle.std.specs.Option.{option_copied, option_map};
ghost use Rattle.fab_base.specs.declared.object.Object.{Object as AnyObject};
ghost use Rattle.fab_base.specs.declared.object.Oid.{Oid as AnyOid};
ghost use Rattle.fab_base.specs.FlatMap.{is_same};
ghost use Rattle.fab_nested.specs.Nested.{Answers, names_of};
ghost use Rattle.fab_eval.specs.Attempts.{is_made_in};
ghost use Rattle.fab_pauses.specs.Evaluations.{IsOf, job_of};
ghost use Rattle.fab_pauses.specs.Jobs.{GoesOn, GoesOnOrStays, IsOldOrNone, IsSameJob, IsThere};

use crate::going::pause_for;
use crate::same::is_same_oid;
use fab_base::{NoMemory, Object, Oid, Seq};
use fab_eval::{Done, Job, Paused, PausedRefused, Turn, start};
use fab_tree::resolved::Resolved;
use std::alloc::{AllocError, Global};
use std::marker::Model;
use std::mem;

/// A program that is lent, and the last job that was evaluated, with what is left of it where it paused.
#[derive(Drop)]
pub struct Evaluator<'a> {
    alloc: Global,
    program: &'a Resolved,
    last: Option<Turn<'a>>,
}

impl<'a> Model for Evaluator<'a> {
    ghost use Rattle.std.specs.Coded.{codes};
    ghost use Rattle.std.specs.Prelude.{IfSome};
    ghost use Rattle.std.specs.Option.{option_map};
    ghost use Rattle.fab_tree.specs.contracts.resolved.Statement as statements;
    ghost use Rattle.fab_tree.specs.contracts.resolved.Expression as expressions;
    ghost use Rattle.fab_pauses.specs.Evaluations.{EvaluatorModel, IsOf, job_of};

    ghost Value = { EvaluatorModel };

    ghost coded = { Prim.hlevel (codes, statements.the_row.coded, expressions.the_row.coded) };

    ghost view = { λ e. record { program = e.program.now; last = option_map job_of e.last } };

    ghost invariant = { λ e. IfSome e.last (λ t. IsOf e.program.now (job_of t)) };
}

impl<'a> Evaluator<'a> {
    /// An evaluator that has evaluated nothing yet.
    pub fn new(alloc: Global, program: &'a Resolved) -> Evaluator<'a>
        ensures program { result.program ≡ program.now }
        ensures none { result.last ≡ None }
    {
        Evaluator {
            alloc,
            program,
            last: None,
        }
    }

    /// Evaluates a job: from where the last one paused, if it is that one with the answer that was needed, and else from its start. Without
    /// memory it has the last job still, or none.
    pub fn evaluate(&mut self, job: Job) -> Result<(), NoMemory>
        requires program { IsOf self.old.program job }
        requires distinct { IsDistinct is_same (names_of job.answers) }
        requires made_before { list_any (λ a. is_made_in job.tid a.0) job.answers ≡ false }
        ensures program { self.new.program ≡ self.old.program }
        ensures last { IfOk result (λ _. IsThere self.new.last job) }
        ensures refused { OnErr result (IsOldOrNone self.old.last self.new.last) }
    {
        match turn_after(self.alloc, self.program, self.last.take(), job) {
            Ok(turn) => {
                self.last = Some(turn);
                Ok(())
            }
            Err(left) => {
                self.last = left;
                Err(AllocError)
            }
        }
    }

    /// Goes on with an answer where the last job paused for it, and says whether it did. So who knows that the next job is this one needs
    /// none.
    pub fn go_on(&mut self, oid: Oid, version: u32, object: Object) -> Result<bool, NoMemory>
        requires { IfSome self.old.last (λ job. is_made_in job.tid oid ≡ false) }
        ensures program { self.new.program ≡ self.old.program }
        ensures last { IfOk result (λ went. GoesOnOrStays went self.old.last oid version object self.new.last) }
        ensures refused { OnErr result (self.new.last ≡ self.old.last) }
    {
        match turn_behind(self.last.take(), oid, version, object) {
            Ok((turn, went)) => {
                self.last = turn;
                Ok(went)
            }
            Err(left) => {
                self.last = left;
                Err(AllocError)
            }
        }
    }

    /// What the last job came to.
    pub fn done(&self) -> Option<&Done>
        ensures job { option_map (λ d. d.job) (option_copied result) ≡ self.now.last }
        ensures program { IfSome (option_copied result) (λ d. IsOf self.now.program d.job) }
    {
        match &self.last {
            Some(Turn::Done(done)) => Some(done),
            Some(Turn::Paused(paused)) => Some(paused.done()),
            None => None,
        }
    }
}

/// What a job comes to behind the last one. Without memory the pause comes back where it would have gone on.
fn turn_after<'a>(
    alloc: Global,
    program: &'a Resolved,
    last: Option<Turn<'a>>,
    job: Job,
) -> Result<Turn<'a>, Option<Turn<'a>>>
    requires program { IsOf program.now job }
    requires last { IfSome last (λ t. IsOf program.now (job_of t)) }
    requires distinct { IsDistinct is_same (names_of job.answers) }
    requires made_before { list_any (λ a. is_made_in job.tid a.0) job.answers ≡ false }
    ensures job { IfOk result (λ t. IsSameJob (job_of t) job) }
    ensures program { IfOk result (λ t. IsOf program.now (job_of t)) }
    ensures left { IfErr result (λ left. IfSome left (λ t. IsOf program.now (job_of t))) }
    ensures refused { IfErr result (λ left. IsOldOrNone (option_map job_of last.entry) (option_map job_of left)) }
{
    match pause_for(last, &job) {
        Some(paused) => match gone_on(alloc, paused, job) {
            Ok(turn) => Ok(turn),
            Err(PausedRefused { paused }) => Err(Some(Turn::Paused(paused))),
        },
        None => match start(alloc, program, job) {
            Ok(turn) => Ok(turn),
            Err(_) => Err(None),
        },
    }
}

/// What the last job comes to with an answer, and whether it paused for this one; else it stays. Without memory it comes back.
fn turn_behind<'a>(
    last: Option<Turn<'a>>,
    oid: Oid,
    version: u32,
    object: Object,
) -> Result<(Option<Turn<'a>>, bool), Option<Turn<'a>>>
    requires { IfSome (option_map job_of last) (λ job. is_made_in job.tid oid ≡ false) }
    ensures last { IfOk result (λ next. GoesOnOrStays next.1 (option_map job_of last.entry) oid version object (option_map job_of next.0)) }
    ensures refused { IfErr result (λ left. option_map job_of left ≡ option_map job_of last.entry) }
{
    match last {
        Some(Turn::Paused(paused)) => {
            if !is_same_oid(paused.need().1, oid) {
                return Ok((Some(Turn::Paused(paused)), false));
            }
            match paused.go_on(version, object) {
                Ok(turn) => Ok((Some(turn), true)),
                Err(PausedRefused { paused }) => Err(Some(Turn::Paused(paused))),
            }
        }
        _ => Ok((last, false)),
    }
}

/// What a job comes to that goes on at a pause.
fn gone_on<'a>(alloc: Global, paused: Paused<'a>, job: Job) -> Result<Turn<'a>, PausedRefused<'a>>
    requires goes_on { GoesOn paused.job paused.oid job }
    requires made_before { list_any (λ a. is_made_in job.tid a.0) job.answers ≡ false }
    ensures job { IfOk result (λ t. IsSameJob (job_of t) job) }
    ensures program { IfOk result (λ t. IsOf paused.entry.job.program.value (job_of t)) }
    ensures refused { IfErr result (λ e. e.paused ≡ paused.entry) }
{
    match last_answer(alloc, job) {
        Some((_, version, object)) => paused.go_on(version, object),
        None => unreachable!(),
    }
}

/// The last answer of a job.
fn last_answer(alloc: Global, job: Job) -> Option<(Oid, u32, Object)>
    ensures { (before : Answers) (o : AnyOid) (version : ℕ) (x : AnyObject) → job.answers ≡ before ++ (o, version, x) ∷ [] → result ≡ Some (o, version, x) }
{
    let mut job = job;
    let mut answers = mem::replace(&mut job.answers, Seq::new(alloc)).into_vec();
    answers.pop()
}
