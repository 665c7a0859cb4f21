//! A whole request.
ghost use Rattle.std.specs.Prelude.{◌≡◌, false, IfErr, IfOk};
ghost use Rattle.std.specs.List.{IsDistinct, list_any};
ghost use Rattle.fab_base.specs.FlatMap.{is_same};
ghost use Rattle.fab_nested.specs.Nested.{names_of};
ghost use Rattle.fab_eval.specs.Attempts.{is_made_in};
ghost use Rattle.fab_eval.specs.declared.job.Job.{Job as AnyJob};
ghost use Rattle.fab_eval.specs.Turns.{Turns};

use crate::done::Done;
use crate::job::{EvalRefused, Job};
use crate::turn::{Turn, start};
use fab_tree::resolved::Resolved;
use std::alloc::Global;

/// Evaluates a request over the objects that were answered.
pub fn evaluate(alloc: Global, job: Job) -> Result<Done, EvalRefused>
    requires distinct { IsDistinct is_same (names_of job.answers) }
    requires made_before { list_any (λ a. is_made_in job.tid a.0) job.answers ≡ false }
    ensures done { IfOk result (λ d. d.job ≡ job) }
    ensures refused { IfErr result (λ e. e.job ≡ job) }
{
    let Ok(shared) = job.program.clone() else {
        return Err(EvalRefused { job });
    };
    let program: &Resolved = &shared;
    match start(alloc, program, job) {
        Ok(turn) => Ok(done_of(turn)),
        Err(refused) => Err(refused),
    }
}

/// The job so far.
fn done_of(turn: Turn<'_>) -> Done
    ensures { (job : AnyJob) → Turns job turn.entry → result.job ≡ job }
{
    match turn {
        Turn::Done(done) => done,
        Turn::Paused(paused) => paused.into_done(),
    }
}
