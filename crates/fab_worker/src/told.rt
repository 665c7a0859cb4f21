//! What notes say of an evaluation: what no earlier one of the attempt touched or downgraded.

ghost use Rattle.std.specs.Prelude.{◌≡◌, IfOk, length, drop, map};
ghost use Rattle.fab_eval.specs.Outcomes.{meant_of};
ghost use Rattle.fab_protocol.specs.Versions.{version_of};
ghost use Rattle.fab_world.specs.Workers.{new_downs, new_touches};
ghost use Rattle.fab_worker.specs.Models.{IsJobOf};

use crate::change::Told;
use crate::worker::Worker;
use fab_base::{NoMemory, Object, Oid, Seq, Value};
use fab_commit::version_in;
use fab_eval::Done;
use std::alloc::Global;

/// What is new, and how much there was in all.
#[derive(Drop)]
pub(crate) struct Telling {
    pub touches: Seq<(u16, Oid, u32)>,
    pub downs: Seq<(u16, Value)>,
    pub told: Told,
}

/// What stands behind so many items.
fn behind<T>(items: &[T], at: usize) -> &[T]
    ensures { result.now ≡ drop at items.now }
{
    if at < items.len() { &items[at..] } else { &[] }
}

/// Touches with the versions of these answers.
fn with_versions(
    alloc: Global,
    touches: &[(u16, Oid)],
    answers: &[(Oid, u32, Object)],
) -> Result<Seq<(u16, Oid, u32)>, NoMemory>
    ensures { IfOk result (λ told. told ≡ map (λ t. (t.0, t.1, version_of answers.now t.1)) touches.now) }
{
    let mut told = Seq::new(alloc);
    for touch in touches {
        told.push((touch.0, touch.1, version_in(answers, touch.1)))?;
    }
    Ok(told)
}

impl Worker {
    /// What an evaluation of the job at work has to tell.
    pub(crate) fn tells(&self, done: &Done) -> Result<Telling, NoMemory>
        requires job { IsJobOf done.now.job self.now }
        ensures touches { IfOk result (λ t. t.touches ≡ new_touches self.now.attempt (meant_of done.now.job)) }
        ensures downs { IfOk result (λ t. t.downs ≡ new_downs self.now.attempt (meant_of done.now.job)) }
        ensures told { IfOk result (λ t. t.told ≡ (length (meant_of done.now.job).touches, length (meant_of done.now.job).downs)) }
    {
        let touches = behind(done.touches.as_slice(), self.told.0);
        Ok(Telling {
            touches: with_versions(self.alloc, touches, &self.answers)?,
            downs: Seq::from_slice(self.alloc, behind(done.downs.as_slice(), self.told.1))?,
            told: (done.touches.len(), done.downs.len()),
        })
    }
}
