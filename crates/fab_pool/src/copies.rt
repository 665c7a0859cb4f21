//! Copies of jobs.
ghost use Rattle.std.specs.Prelude.{◌≡◌, IfOk};
ghost use Rattle.fab_pool.specs.Jobs.{IsCopy};

use fab_base::{NoMemory, Object, Oid, Seq};
use fab_eval::{Done, Job, copy_of_request};
use std::alloc::Global;

/// Copies of answers.
fn copy_of_answers(
    alloc: Global,
    answers: &[(Oid, u32, Object)],
) -> Result<Seq<(Oid, u32, Object)>, NoMemory>
    ensures { IfOk result (λ copies. copies ≡ answers.now) }
{
    let mut copies = Vec::new(alloc);
    for answer in answers {
        copies.push((answer.0, answer.1, answer.2.copy(alloc)?))?;
    }
    Ok(Seq::from_vec(copies))
}

/// A job once more. Its program is shared.
pub(crate) fn copy_of_job(alloc: Global, job: &Job) -> Result<Job, NoMemory>
    ensures { IfOk result (IsCopy job.now) }
{
    let program = job.program.clone()?;
    let request = copy_of_request(alloc, &job.request)?;
    let answers = copy_of_answers(alloc, job.answers.as_slice())?;
    Ok(Job {
        program,
        request,
        tid: job.tid,
        answers,
    })
}

/// What a copy of a job came to is what the job comes to. Of the copy nothing is kept.
pub(crate) fn done_of(job: Job, done: Done) -> Done
    requires { IsCopy job done.job }
    ensures { result.job ≡ job }
{
    let Done {
        job: _copy,
        outcome,
        touches,
        downs,
        ..
    } = done;
    Done {
        job,
        outcome,
        touches,
        downs,
    }
}
