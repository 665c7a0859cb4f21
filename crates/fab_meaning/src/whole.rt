//! A whole request.
ghost use Rattle.std.specs.Prelude.{◌≡◌, IfOk};
ghost use Rattle.fab_language.specs.Meaning.{meaning as what_is_meant, meant_at};
ghost use Rattle.fab_rights.specs.Computed.{has_bit};
ghost use Rattle.fab_erasure.specs.Erased.{erased};
ghost use Rattle.fab_meaning.specs.Ends.{AreChanges, IsMeant, ended_by, ending_of};
ghost use Rattle.fab_meaning.specs.Sights.{sees, shows};

use crate::erased::Erased;
use crate::methods::{blank_result, locals_at_start};
use crate::setting::Sight;
use fab_base::{NoMemory, Object, Oid, Seq, Tid, Value};
use fab_erasure::everything_seen;
use fab_language::Ending;
use fab_map::ObjectMap;
use fab_places::Seen;
use fab_stack::{End, State, Way, begun, run};
use fab_tree::resolved::{Request, Resolved};
use std::alloc::Global;

/// What a request does: how it ends, the map as it then stands with the names that were written and
/// made in it, the touches, and the values that were downgraded, each with its site.
#[derive(Drop)]
pub struct Meant {
    pub ending: Ending,
    pub map: ObjectMap,
    pub written: Seq<Oid>,
    pub made: Seq<Oid>,
    pub touches: Seq<(u16, Oid)>,
    pub downs: Seq<(u16, Value)>,
}

/// What a request changes: how it ends, and the objects that were written in it and then those that were
/// made, as they then stand.
#[derive(Drop)]
pub struct Changes {
    pub ending: Ending,
    pub changed: Seq<(Oid, Object)>,
}

/// How a request ended, and what stands at its end.
#[derive(Drop)]
struct Finished<'a> {
    ended: Result<Option<Value>, End>,
    state: State<'a>,
}

/// What a request means in a program, as far as it can be computed by who sees the labels and is shown
/// the classes that have their bits: over a map, given what was downgraded into what is seen, in an
/// attempt and with so much fuel.
pub fn meaning(
    alloc: Global,
    program: &Resolved,
    seen: &Seen,
    known: &ObjectMap,
    given: &[Value],
    request: &Request,
    tid: Tid,
    fuel: u32,
) -> Result<Meant, NoMemory>
    ensures { IfOk result (λ m. IsMeant m (erased (has_bit seen.now.labels) (has_bit seen.now.classes) program.now known.now request.now tid fuel given.now)) }
{
    found(
        alloc,
        program,
        Sight::Part(*seen),
        known,
        given,
        request,
        tid,
        fuel,
    )
}

/// What a request means with everything seen: what it does.
pub fn plain_meaning(
    alloc: Global,
    program: &Resolved,
    known: &ObjectMap,
    request: &Request,
    tid: Tid,
    fuel: u32,
) -> Result<Meant, NoMemory>
    ensures { IfOk result (λ m. IsMeant m (what_is_meant program.now known.now request.now tid fuel)) }
{
    everything_seen();
    found(alloc, program, Sight::Whole, known, &[], request, tid, fuel)
}

/// What a request changes, as far as it can be computed by who sees the labels and is shown the classes
/// that have their bits. The map that it is done over isn't copied.
pub fn effect(
    alloc: Global,
    program: &Resolved,
    seen: &Seen,
    known: &ObjectMap,
    given: &[Value],
    request: &Request,
    tid: Tid,
    fuel: u32,
) -> Result<Changes, NoMemory>
    ensures { IfOk result (λ e. AreChanges e (erased (has_bit seen.now.labels) (has_bit seen.now.classes) program.now known.now request.now tid fuel given.now)) }
{
    change_found(
        alloc,
        program,
        Sight::Part(*seen),
        known,
        given,
        request,
        tid,
        fuel,
    )
}

/// What a request changes with everything seen: what it does. The map that it is done over isn't copied.
pub fn plain_effect(
    alloc: Global,
    program: &Resolved,
    known: &ObjectMap,
    request: &Request,
    tid: Tid,
    fuel: u32,
) -> Result<Changes, NoMemory>
    ensures { IfOk result (λ e. AreChanges e (what_is_meant program.now known.now request.now tid fuel)) }
{
    everything_seen();
    change_found(alloc, program, Sight::Whole, known, &[], request, tid, fuel)
}

fn change_found(
    alloc: Global,
    program: &Resolved,
    sight: Sight,
    known: &ObjectMap,
    given: &[Value],
    request: &Request,
    tid: Tid,
    fuel: u32,
) -> Result<Changes, NoMemory>
    ensures { IfOk result (λ e. AreChanges e (erased (sees sight) (shows sight) program.now known.now request.now tid fuel given.now)) }
{
    let Finished { ended, state } = ran(alloc, program, sight, known, given, request, tid, fuel)?;
    let changed = state.changes()?;
    Ok(Changes {
        ending: ending_of(ended),
        changed,
    })
}

fn found(
    alloc: Global,
    program: &Resolved,
    sight: Sight,
    known: &ObjectMap,
    given: &[Value],
    request: &Request,
    tid: Tid,
    fuel: u32,
) -> Result<Meant, NoMemory>
    ensures { IfOk result (λ m. IsMeant m (erased (sees sight) (shows sight) program.now known.now request.now tid fuel given.now)) }
{
    let Finished { ended, state } = ran(alloc, program, sight, known, given, request, tid, fuel)?;
    over(ended, state)
}

/// What was meant, from how a run ended and the state at its end.
pub(crate) fn over(ended: Result<Option<Value>, End>, state: State<'_>) -> Result<Meant, NoMemory>
    ensures { IfOk result (λ m. IsMeant m (meant_at (ending_of ended) state.entry.state)) }
{
    let (map, written, made) = state.parts()?;
    let (touches, downs) = state.into_notes()?;
    Ok(Meant {
        ending: ending_of(ended),
        map,
        written,
        made,
        touches,
        downs,
    })
}

/// Runs a request's method, if there is one and it is seen, to the end or until an object lacks.
fn ran<'a>(
    alloc: Global,
    program: &Resolved,
    sight: Sight,
    known: &'a ObjectMap,
    given: &[Value],
    request: &Request,
    tid: Tid,
    fuel: u32,
) -> Result<Finished<'a>, NoMemory>
    ensures { IfOk result (λ r. erased (sees sight) (shows sight) program.now known.now request.now tid fuel given.now ≡ meant_at (ending_of r.ended) r.state.state) }
{
    // (a map's rows are in the order of names)
    let _ = known.rows();
    let mut state = State::over(alloc, tid, fuel, known, given)?;
    let Some(first) = program.methods.as_slice().get(usize::from(request.method)) else {
        return Ok(Finished {
            ended: Ok(None),
            state,
        });
    };
    if !sight.sees(first.begin.number) {
        return Ok(Finished {
            ended: Ok(blank_result(first)),
            state,
        });
    }
    let locals = locals_at_start(alloc, sight, first, request.args.as_slice())?;
    let mut stack = begun(&mut state, first, locals)?;
    let way = run(&Erased { sight }, program, first, &mut stack, &mut state)?;
    Ok(Finished {
        ended: ended_by(way),
        state,
    })
}

/// How a run ended; one that lacks an object ended there.
fn ended_by(way: Way) -> Result<Option<Value>, End>
    ensures { result ≡ ended_by way }
{
    match way {
        Way::Over(ended) => ended,
        Way::Lacks { site, oid, .. } => Err(End::Missing { site, oid }),
    }
}

/// The ending of a request that a run ended so.
fn ending_of(ended: Result<Option<Value>, End>) -> Ending
    ensures { result ≡ ending_of ended }
{
    match ended {
        Ok(value) => Ending::Ended(value),
        Err(End::Failed) => Ending::Failed,
        Err(End::Stopped(stop)) => Ending::Stopped(stop),
        Err(End::Missing { site, oid }) => Ending::Missing { site, oid },
    }
}
