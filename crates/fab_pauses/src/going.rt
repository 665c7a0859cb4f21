//! Whether a job goes on where another one paused.
ghost use Rattle.std.specs.Prelude.{◌≡◌, IfSome, Some};
ghost use Rattle.std.specs.Bool.{MatchBool};
ghost use Rattle.std.specs.Option.{option_copied, option_map};
ghost use Rattle.fab_tree.specs.declared.resolved.Resolved.{Resolved as AnyProgram};
ghost use Rattle.fab_pauses.specs.Evaluations.{IsOf, job_of};
ghost use Rattle.fab_pauses.specs.Jobs.{GoesOn, IsLastBehind, IsOneMore};

use crate::same::{are_same_answers, is_same_oid, is_same_request};
use fab_base::{Object, Oid};
use fab_eval::{Job, Paused, Turn};

/// The last of these answers, where those before it are others. Lengths are compared first, since most jobs differ in them.
pub fn answer_behind<'a>(
    before: &[(Oid, u32, Object)],
    answers: &'a [(Oid, u32, Object)],
) -> Option<&'a (Oid, u32, Object)>
    ensures { IsLastBehind before.now answers.now (option_copied result) }
{
    let Some((last, front)) = answers.split_last() else {
        return None;
    };
    if front.len() != before.len() {
        return None;
    }
    if are_same_answers(front, before) {
        Some(last)
    } else {
        None
    }
}

/// Whether answers are others with one more, of this object and the last.
fn is_one_more(before: &[(Oid, u32, Object)], oid: Oid, answers: &[(Oid, u32, Object)]) -> bool
    ensures { MatchBool result (IsOneMore before.now oid answers.now) (IsOneMore before.now oid answers.now → ⊥) }
{
    match answer_behind(before, answers) {
        Some(last) => is_same_oid(last.0, oid),
        None => false,
    }
}

/// Whether a job is another one with an answer more, of this object and the last. Nothing is copied.
#[tactic(auto, using(crate::proofs::Adding::goes, crate::proofs::Adding::one_more_of))]
fn goes_on(before: &Job, oid: Oid, job: &Job) -> bool
    ensures { MatchBool result (GoesOn before.now oid job.now) (GoesOn before.now oid job.now → ⊥) }
{
    is_same_request(&job.request, &before.request)
        && job.tid == before.tid
        && is_one_more(before.answers.as_slice(), oid, job.answers.as_slice())
}

/// The pause where a job goes on, if it does.
pub(crate) fn pause_for<'a>(last: Option<Turn<'a>>, job: &Job) -> Option<Paused<'a>>
    ensures goes_on { IfSome result (λ p. GoesOn p.job p.oid job.now) }
    ensures its { IfSome result (λ p. option_map job_of last.entry ≡ Some p.job) }
    ensures last { (program : AnyProgram) → IfSome last.entry (λ t. IsOf program (job_of t)) → IfSome result (λ p. IsOf program p.job) }
{
    match last {
        Some(Turn::Paused(paused)) => {
            if goes_on(&paused.done().job, paused.need().1, job) {
                Some(paused)
            } else {
                None
            }
        }
        _ => None,
    }
}
