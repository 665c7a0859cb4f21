//! Runs by the erased meaning, from the start to the first object that lacks, and from there on.
ghost use Rattle.std.specs.Prelude.{◌≡◌, IfOk};
ghost use Rattle.fab_stack.specs.Stepping.{IsMatched};
ghost use Rattle.fab_meaning.specs.Jobs.{Job as AnyJob, answered};
ghost use Rattle.fab_meaning.specs.Lefts.{IsLeftOf};
ghost use Rattle.fab_meaning.specs.Turns.{IsDone, IsPausedAt, Turns, Waits};

use crate::erased::Erased;
use crate::methods::{blank_result, locals_at_start};
use crate::setting::Sight;
use crate::whole::{Meant, over};
use fab_base::{NoMemory, Object, Oid, Tid, Value};
use fab_map::ObjectMap;
use fab_places::Seen;
use fab_stack::{End, Entry, State, Way, begun, run};
use fab_tree::resolved::{Method, Request, Resolved};
use std::alloc::Global;

/// Where a request lacks an object at a site: the method that was asked for, what is left to do, the
/// state at the lack, and the fuel before what lacks it with how many touches there were, of how many
/// objects. It keeps the map that it was begun over, and copies nothing of it.
#[derive(Drop)]
pub struct Paused<'a> {
    program: &'a Resolved,
    seen: Seen,
    pub site: u16,
    pub oid: Oid,
    first: &'a Method,
    stack: Vec<Entry<'a>>,
    state: State<'a>,
    fuel: u32,
    pairs: usize,
    objects: usize,
}

/// A request so far: what it means, or where it lacks an object.
#[derive(Drop)]
pub enum Turn<'a> {
    Done(Meant),
    Paused(Paused<'a>),
}

/// Begins what `meaning` does, over a map that is given.
pub fn begin<'a>(
    alloc: Global,
    program: &'a Resolved,
    seen: &Seen,
    known: ObjectMap,
    given: &[Value],
    request: &Request,
    tid: Tid,
    fuel: u32,
) -> Result<Turn<'a>, NoMemory>
    ensures { IfOk result (Turns (record { program = program.now; seen = seen.now; known = known; given = given.now; request = request.now; tid = tid; fuel = fuel })) }
{
    // (a map's rows are in the order of names)
    let _ = known.rows();
    let mut state = State::owning(alloc, tid, fuel, known, given)?;
    let Some(first) = program.methods.as_slice().get(usize::from(request.method)) else {
        return done(Ok(None), state);
    };
    let sight = Sight::Part(*seen);
    if !sight.sees(first.begin.number) {
        return done(Ok(blank_result(first)), state);
    }
    let locals = locals_at_start(alloc, sight, first, request.args.as_slice())?;
    let stack = begun(&mut state, first, locals)?;
    going(program, *seen, first, stack, state)
}

/// A request that is over, from how it ended and the state at its end.
fn done<'a>(ended: Result<Option<Value>, End>, state: State<'a>) -> Result<Turn<'a>, NoMemory>
    ensures { IfOk result (IsDone ended state.entry) }
{
    Ok(Turn::Done(over(ended, state)?))
}

/// Runs what is left of a request.
fn going<'a>(
    program: &'a Resolved,
    seen: Seen,
    first: &'a Method,
    stack: Vec<Entry<'a>>,
    state: State<'a>,
) -> Result<Turn<'a>, NoMemory>
    requires { IsMatched stack.items state }
    ensures { IfOk result (λ turn. (job : AnyJob) → program.now ≡ job.program → seen ≡ job.seen → IsLeftOf job first.now stack.entry.items state.entry → Turns job turn) }
{
    let sight = Sight::Part(seen);
    let mut stack = stack;
    let mut state = state;
    match run(&Erased { sight }, program, first, &mut stack, &mut state)? {
        Way::Over(ended) => done(ended, state),
        Way::Lacks {
            site,
            oid,
            fuel,
            pairs,
            objects,
        } => {
            Ok(Turn::Paused(Paused {
                program,
                seen,
                site,
                oid,
                first,
                stack,
                state,
                fuel,
                pairs,
                objects,
            }))
        }
    }
}

impl<'a> Paused<'a> {
    /// Goes on with the object that lacked: what `begin` gives for the map with it. Whoever is given
    /// more values begins again.
    pub fn go_on(self, object: Object) -> Result<Turn<'a>, NoMemory>
        requires { Waits self }
        ensures { IfOk result (λ turn. (job : AnyJob) → IsPausedAt job self.entry → Turns (answered self.entry.oid object job) turn) }
    {
        let Paused {
            program,
            seen,
            site: _,
            oid,
            first,
            stack,
            mut state,
            fuel,
            pairs,
            objects,
        } = self;
        state.go_back(fuel, pairs, objects);
        state.answer(oid, 1, object)?;
        going(program, seen, first, stack, state)
    }
}
