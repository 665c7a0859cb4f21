//! A job is evaluated between a gate's calls.
ghost use Rattle.std.specs.Prelude.{◌≡◌, false, IfOk};
ghost use Rattle.std.specs.List.{IsDistinct, list_any};
ghost use Rattle.fab_base.specs.FlatMap.{is_same};
ghost use Rattle.fab_eval.specs.Attempts.{is_made_in};
ghost use Rattle.fab_pauses.specs.Evaluations.{last_of};
ghost use Rattle.fab_pauses.specs.Jobs.{IsThere};
ghost use Rattle.fab_protocol.specs.Versions.{names_of};

use fab_base::NoMemory;
use fab_eval::Job;
use fab_gates::Gate;
use fab_pauses::{Evaluator, Evaluators};

/// Evaluates a job of a node by the node's own evaluator. It takes no lock, and who calls it holds none.
pub(crate) fn evaluate_at<G: Gate>(
    gate: &G,
    node: u16,
    evaluator: &mut Evaluator<'_>,
    job: Job,
) -> Result<(), NoMemory>
    requires program { job.program.value ≡ evaluator.old.program }
    requires distinct { IsDistinct is_same (names_of job.answers) }
    requires made_before { list_any (λ a. is_made_in job.tid a.0) job.answers ≡ false }
    ensures program { evaluator.new.program ≡ evaluator.old.program }
    ensures last { IfOk result (λ _. IsThere evaluator.new.last job) }
{
    gate.before(node);
    let evaluated = evaluator.evaluate(job);
    gate.after(node);
    evaluated
}

/// The same by the evaluators of all nodes.
pub(crate) fn evaluate_among<G: Gate>(
    gate: &G,
    node: u16,
    evaluators: &mut Evaluators<'_>,
    job: Job,
) -> Result<(), NoMemory>
    requires program { job.program.value ≡ evaluators.old.program }
    requires distinct { IsDistinct is_same (names_of job.answers) }
    requires made_before { list_any (λ a. is_made_in job.tid a.0) job.answers ≡ false }
    ensures program { evaluators.new.program ≡ evaluators.old.program }
    ensures last { IfOk result (λ _. IsThere (last_of evaluators.new node) job) }
{
    gate.before(node);
    let evaluated = evaluators.evaluate(node, job);
    gate.after(node);
    evaluated
}
