//! What is evaluated, and what that may come to.
ghost use Rattle.std.specs.Prelude.{◌≡◌, IfOk};

use fab_base::{NoMemory, Object, Oid, Seq, Stop, Tid, Value};
use fab_tree::resolved::{Request, Resolved};
use std::alloc::Global;
use std::sync::Arc;

/// A request in a program, the attempt that runs it, and the objects that were answered so far,
/// each with the version that was read.
pub struct Job {
    pub program: Arc<Resolved>,
    pub request: Request,
    pub tid: Tid,
    pub answers: Seq<(Oid, u32, Object)>,
}

impl Drop for Job {
    fn drop(self) {
        let Job {
            program,
            request,
            tid,
            answers,
        } = self;
    }
}

/// An equal request, for one more attempt at it.
pub fn copy_of_request(alloc: Global, request: &Request) -> Result<Request, NoMemory>
    ensures { IfOk result (λ r. r ≡ request.now) }
{
    Ok(Request {
        worker: request.worker,
        number: request.number,
        method: request.method,
        args: Seq::from_slice(alloc, request.args.as_slice())?,
    })
}

/// What a request comes to over its answers: one object more is needed, at a site, for it to go on;
/// it ended, with its value, what it wrote, each object with the version that was read, and what it
/// made, both in the order of names; it failed; or it came to a limit.
#[derive(Drop)]
pub enum Outcome {
    Need {
        site: u16,
        oid: Oid,
    },
    Ended {
        value: Option<Value>,
        writes: Seq<(Oid, u32, Object)>,
        creates: Seq<(Oid, Object)>,
    },
    Failed,
    Stopped(Stop),
}

/// Want of memory, with the job as it was.
#[derive(Drop)]
pub struct EvalRefused {
    pub job: Job,
}
