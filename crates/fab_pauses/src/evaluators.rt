//! Evaluators of many workers.
ghost use Rattle.std.specs.Prelude.{◌≡◌, ◌%◌, ℕ, false, None, IfOk, IfSome, OnErr, replicate};
ghost use Rattle.std.specs.List.{IsDistinct, list_any};
ghost use Rattle.std.specs.Option.{option_copied, option_map};
ghost use Rattle.fab_base.specs.FlatMap.{is_same};
ghost use Rattle.fab_nested.specs.Nested.{names_of};
ghost use Rattle.fab_eval.specs.Attempts.{is_made_in};
ghost use Rattle.fab_pauses.specs.Evaluations.{IsOf, last_of};
ghost use Rattle.fab_pauses.specs.Jobs.{GoesOnOrStays, IsOldOrNone, IsThere};

use crate::evaluator::Evaluator;
use fab_base::{NoMemory, Object, Oid};
use fab_eval::{Done, Job};
use fab_tree::resolved::Resolved;
use std::alloc::Global;
use std::marker::Model;

/// Nodes have numbers below this.
const NUMBERS: u16 = 64;

/// An evaluator for each number of a node, so that jobs of one worker don't push out those of another. Higher numbers, which no node has,
/// share them.
#[derive(Drop)]
pub struct Evaluators<'a> {
    program: &'a Resolved,
    all: Vec<Evaluator<'a>>,
}

impl<'a> Model for Evaluators<'a> {
    ghost use Rattle.std.specs.Prelude.{map};
    ghost use Rattle.std.specs.Coded.{codes};
    ghost use Rattle.fab_tree.specs.contracts.resolved.Statement as statements;
    ghost use Rattle.fab_tree.specs.contracts.resolved.Expression as expressions;
    ghost use Rattle.fab_pauses.specs.Evaluations.{AreOf, EvaluatorsModel};

    ghost Value = { EvaluatorsModel };

    ghost coded = { Prim.hlevel (codes, statements.the_row.coded, expressions.the_row.coded) };

    ghost view = { λ e. record { program = e.program.now; lasts = map (λ x. x.last) e.all.items } };

    ghost invariant = { λ e. AreOf e.program.now e.all.items };
}

/// The place of a worker's evaluator.
fn place_of(worker: u16) -> usize
    ensures { result ≡ worker % 64 }
{
    usize::from(worker % NUMBERS)
}

/// An evaluator for each number, of which none has evaluated anything.
fn none_yet<'a>(alloc: Global, program: &'a Resolved) -> Result<Vec<Evaluator<'a>>, NoMemory>
    ensures { IfOk result (λ all. all.items ≡ replicate 64 (record { program = program.now; last = None })) }
{
    let mut all = Vec::new(alloc);
    'numbers: while all.len() < usize::from(NUMBERS) {
        all.push(Evaluator::new(alloc, program))?;
    }
    Ok(all)
}

impl<'a> Evaluators<'a> {
    /// Evaluators that have evaluated nothing yet.
    pub fn new(alloc: Global, program: &'a Resolved) -> Result<Evaluators<'a>, NoMemory>
        ensures program { IfOk result (λ all. all.program ≡ program.now) }
        ensures none { IfOk result (λ all. (worker : ℕ) → last_of all worker ≡ None) }
    {
        let all = none_yet(alloc, program)?;
        Ok(Evaluators { program, all })
    }

    /// Evaluates a job of a worker, as `evaluate` of its evaluator.
    pub fn evaluate(&mut self, worker: u16, job: Job) -> Result<(), NoMemory>
        requires program { IsOf self.old.program job }
        requires distinct { IsDistinct is_same (names_of job.answers) }
        requires made_before { list_any (λ a. is_made_in job.tid a.0) job.answers ≡ false }
        ensures program { self.new.program ≡ self.old.program }
        ensures last { IfOk result (λ _. IsThere (last_of self.new worker) job) }
        ensures others { (other : ℕ) → (other % 64 ≡ worker % 64 → ⊥) → last_of self.new other ≡ last_of self.old other }
        ensures refused { OnErr result (IsOldOrNone (last_of self.old worker) (last_of self.new worker)) }
    {
        self.all[place_of(worker)].evaluate(job)
    }

    /// Goes on with an answer where the last job of a worker paused for it, and says whether it did, as `go_on` of its evaluator.
    pub fn go_on(
        &mut self,
        worker: u16,
        oid: Oid,
        version: u32,
        object: Object,
    ) -> Result<bool, NoMemory>
        requires { IfSome (last_of self.old worker) (λ job. is_made_in job.tid oid ≡ false) }
        ensures program { self.new.program ≡ self.old.program }
        ensures last { IfOk result (λ went. GoesOnOrStays went (last_of self.old worker) oid version object (last_of self.new worker)) }
        ensures others { (other : ℕ) → (other % 64 ≡ worker % 64 → ⊥) → last_of self.new other ≡ last_of self.old other }
        ensures refused { OnErr result (last_of self.new worker ≡ last_of self.old worker) }
    {
        self.all[place_of(worker)].go_on(oid, version, object)
    }

    /// What the last job of a worker came to.
    pub fn done(&self, worker: u16) -> Option<&Done>
        ensures job { option_map (λ d. d.job) (option_copied result) ≡ last_of self.now worker }
        ensures program { IfSome (option_copied result) (λ d. IsOf self.now.program d.job) }
    {
        self.all[place_of(worker)].done()
    }
}
