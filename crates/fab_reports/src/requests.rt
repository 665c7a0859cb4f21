//! What a line says of a request.
ghost use Rattle.fab_wire.specs.Reading.{Gives};
ghost use Rattle.fab_reports.specs.Reading.{attempt_before, commit_at, ending_by, ending_at, outcome_at};

use crate::kinds::EndingKind;
use crate::line::{Attempt, ShownCommit, ShownEnding, ShownOutcome};
use crate::scanning::{request_until, u32_until, word_until};
use crate::values::value_of;
use crate::word::one_of;
use fab_net::Denial;
use fab_wire::Stop;
use std::alloc::Global;

const ENDING_KINDS: [EndingKind; 8] = [
    EndingKind::Committed,
    EndingKind::Failed,
    EndingKind::Conflict,
    EndingKind::Silent,
    EndingKind::Denied,
    EndingKind::Stopped,
    EndingKind::NodeDown,
    EndingKind::Unfinished,
];

const DENIALS: [Denial; 2] = [Denial::Rights, Denial::IllFormed];

const LIMITS: [fab_base::Stop; 4] = [
    fab_base::Stop::Fuel,
    fab_base::Stop::Depth,
    fab_base::Stop::Reads,
    fab_base::Stop::Writes,
];

/// A boot and a number, which ends with this byte.
#[tactic(auto, unfolding(crate::specs::Reading::attempt_before))]
fn attempt_until(bytes: &[u8], end: u8) -> Result<(Attempt, &[u8]), Stop>
    ensures { Gives (λ x. (x.0, x.1.now)) result (attempt_before end bytes.now) }
{
    let (boot, rest) = u32_until(bytes, b'.')?;
    let (number, rest) = u32_until(rest, end)?;
    Ok((Attempt { boot, number }, rest))
}

/// What stands behind a commit's number.
#[tactic(auto, unfolding(crate::specs::Reading::commit_at))]
pub(crate) fn commit_of(alloc: Global, bytes: &[u8]) -> Result<(ShownCommit, &[u8]), Stop>
    ensures { Gives (λ x. (x.0, x.1.now)) result (commit_at bytes.now) }
{
    let (worker, rest) = word_until(alloc, bytes, b' ')?;
    let (request, rest) = request_until(rest, b' ')?;
    let (attempt, rest) = attempt_until(rest, b'\n')?;
    let commit = ShownCommit {
        worker,
        request,
        attempt,
    };
    Ok((commit, rest))
}

fn ending_of_kind(
    alloc: Global,
    kind: EndingKind,
    bytes: &[u8],
) -> Result<(ShownEnding, &[u8]), Stop>
    ensures { Gives (λ x. (x.0, x.1.now)) result (ending_by kind bytes.now) }
{
    match kind {
        EndingKind::Committed => {
            let (attempt, rest) = attempt_until(bytes, b' ')?;
            let ((result, _end), rest) = value_of(alloc, rest, b"\n")?;
            Ok((ShownEnding::Committed { attempt, result }, rest))
        }
        EndingKind::Failed => Ok((ShownEnding::Failed, bytes)),
        EndingKind::Conflict => Ok((ShownEnding::Conflict, bytes)),
        EndingKind::Silent => {
            let (node, rest) = word_until(alloc, bytes, b'\n')?;
            Ok((ShownEnding::Silent { node }, rest))
        }
        EndingKind::Denied => {
            let (node, rest) = word_until(alloc, bytes, b' ')?;
            let (denial, rest) = one_of(&DENIALS, rest)?;
            Ok((ShownEnding::Denied { node, denial }, rest))
        }
        EndingKind::Stopped => {
            let (stop, rest) = one_of(&LIMITS, bytes)?;
            Ok((ShownEnding::Stopped { stop }, rest))
        }
        EndingKind::NodeDown => Ok((ShownEnding::NodeDown, bytes)),
        EndingKind::Unfinished => Ok((ShownEnding::Unfinished, bytes)),
    }
}

#[tactic(auto, unfolding(crate::specs::Reading::ending_at))]
fn ending_of(alloc: Global, bytes: &[u8]) -> Result<(ShownEnding, &[u8]), Stop>
    ensures { Gives (λ x. (x.0, x.1.now)) result (ending_at bytes.now) }
{
    let (kind, rest) = one_of(&ENDING_KINDS, bytes)?;
    ending_of_kind(alloc, kind, rest)
}

/// A request, and how it ended.
#[tactic(auto, unfolding(crate::specs::Reading::outcome_at))]
pub(crate) fn outcome_of(alloc: Global, bytes: &[u8]) -> Result<(ShownOutcome, &[u8]), Stop>
    ensures { Gives (λ x. (x.0, x.1.now)) result (outcome_at bytes.now) }
{
    let (worker, rest) = word_until(alloc, bytes, b' ')?;
    let (request, rest) = request_until(rest, b' ')?;
    let (ending, rest) = ending_of(alloc, rest)?;
    let outcome = ShownOutcome {
        worker,
        request,
        ending,
    };
    Ok((outcome, rest))
}
