//! One request over a map.
ghost use Rattle.std.specs.Prelude.{◌≡◌, IfOk};
ghost use Rattle.fab_evaluation.specs.Singles.{IsSingle, changes_at, ending_of};

use fab_base::{NoMemory, Object, Oid, Seq, Tid};
use fab_eval::{Plain, locals_at_start};
use fab_language::Ending;
use fab_map::ObjectMap;
use fab_stack::{End, State, Way, begun, run};
use fab_tree::resolved::{Request, Resolved};
use std::alloc::Global;

const FUEL: u32 = 1_000_000;

/// How a request ended, and the objects that it leaves in the place of others and those that it made, as
/// they then stand, in the order of names.
#[derive(Drop)]
pub(crate) struct Single {
    pub(crate) ending: Ending,
    pub(crate) changed: Seq<(Oid, Object)>,
}

/// What a request comes to over a map, which isn't copied: beside what the request does it costs the
/// search for each object that it reaches.
pub(crate) fn run_one(
    alloc: Global,
    program: &Resolved,
    objects: &ObjectMap,
    request: &Request,
) -> Result<Single, NoMemory>
    ensures { IfOk result (IsSingle program.now objects.now request.now) }
{
    // (a map's rows are in the order of names)
    let _ = objects.rows();
    let Some(first) = program.methods.as_slice().get(request.method as usize) else {
        return Ok(Single {
            ending: Ending::Ended(None),
            changed: Seq::new(alloc),
        });
    };
    let tid = Tid {
        worker: request.worker,
        boot: 1,
        number: request.number,
    };
    let mut state = State::over(alloc, tid, FUEL, objects, &[])?;
    let args = Seq::from_slice(alloc, request.args.as_slice())?;
    let locals = locals_at_start(first, args)?;
    let mut stack = begun(&mut state, first, locals)?;
    let way = run(&Plain, program, first, &mut stack, &mut state)?;
    Ok(single_at(alloc, way, state))
}

/// What a run came to, from the state at its end. An object that lacks ends it.
fn single_at(alloc: Global, way: Way, state: State<'_>) -> Single
    ensures ending { result.ending ≡ ending_of way }
    ensures changed { result.changed ≡ changes_at (ending_of way) state.entry.state.heap }
{
    let ending = match way {
        Way::Over(Ok(value)) => {
            return Single {
                ending: Ending::Ended(value),
                changed: state.into_changed(),
            };
        }
        Way::Over(Err(End::Failed)) => Ending::Failed,
        Way::Over(Err(End::Stopped(stop))) => Ending::Stopped(stop),
        Way::Over(Err(End::Missing { site, oid })) => Ending::Missing { site, oid },
        Way::Lacks { site, oid, .. } => Ending::Missing { site, oid },
    };
    Single {
        ending,
        changed: Seq::new(alloc),
    }
}
