//! How many there are. More of them than 64 bits can count have no room in memory.
ghost use Rattle.std.specs.Prelude.{◌≡◌, IfOk, length, count_by};
ghost use Rattle.fab_drill.specs.Summary.{joined, is_committed};

use fab_base::{NoMemory, Seq};
use fab_net::ReqOutcome;
use std::alloc::AllocError;

/// How many elements all these lists have.
pub(crate) fn count_in<T>(lists: &[Seq<T>]) -> Result<u64, NoMemory>
    ensures { IfOk result (λ n. n ≡ length (joined lists.now)) }
{
    let mut count: u64 = 0;
    for list in lists {
        count = count.checked_add(list.len() as u64).ok_or(AllocError)?;
    }
    Ok(count)
}

/// Whether a request was committed.
fn is_committed(outcome: ReqOutcome) -> bool
    ensures { result ≡ is_committed outcome }
{
    match outcome {
        ReqOutcome::Committed(..) => true,
        _ => false,
    }
}

/// How many of a node's requests were committed.
fn committed_of(outcomes: &[ReqOutcome]) -> usize
    ensures { result ≡ count_by is_committed outcomes.now }
{
    outcomes.iter().filter(|x| is_committed(**x)).count()
}

/// How many requests were committed.
pub(crate) fn committed_in(workers: &[Seq<ReqOutcome>]) -> Result<u64, NoMemory>
    ensures { IfOk result (λ n. n ≡ count_by is_committed (joined workers.now)) }
{
    let mut count: u64 = 0;
    for outcomes in workers {
        let more = committed_of(outcomes.as_slice());
        count = count.checked_add(more as u64).ok_or(AllocError)?;
    }
    Ok(count)
}
