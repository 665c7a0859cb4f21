//! What is found of a job: what it comes to, and what is left of it.
ghost use Rattle.std.specs.Prelude.{◌≡◌, false, None, Some, [], IfOk};
ghost use Rattle.std.specs.List.{IsDistinct, list_any};
ghost use Rattle.fab_base.specs.FlatMap.{is_same};
ghost use Rattle.fab_language.specs.Meaning.{ending_at, unchanged};
ghost use Rattle.fab_nested.specs.Nested.{names_of};
ghost use Rattle.fab_stack.specs.Attempts.{is_made_in};
ghost use Rattle.fab_stack.specs.Gives.{end_of};
ghost use Rattle.fab_stack.specs.Stepping.{IsMatched};
ghost use Rattle.fab_eval.specs.declared.job.Job.{Job as AnyJob};
ghost use Rattle.fab_eval.specs.declared.job.Outcome.TheVariants.{Need};
ghost use Rattle.fab_eval.specs.Founds.{IsFound};
ghost use Rattle.fab_eval.specs.Lefts.{IsLeftOf};
ghost use Rattle.fab_eval.specs.Outcomes.{outcome_at};
ghost use Rattle.fab_eval.specs.Pauses.{Resumes};
ghost use Rattle.fab_eval.specs.Settles.{Settles};

use crate::job::{Job, Outcome};
use crate::plain::{Plain, locals_at_start};
use fab_base::{NoMemory, Object, Oid, Seq, Value};
use fab_stack::{End, Entry, State, Way, begun, run};
use fab_tree::resolved::{Method, Resolved};
use std::alloc::Global;

const FUEL: u32 = 1_000_000;

/// Where a job lacks an object: the method that was asked for, what is left to do, the state at the
/// lack, and the fuel before what lacks it with how many touches there were, of
/// how many objects.
#[derive(Drop)]
pub(crate) struct At<'a> {
    pub(crate) site: u16,
    pub(crate) oid: Oid,
    pub(crate) first: &'a Method,
    pub(crate) stack: Vec<Entry<'a>>,
    pub(crate) state: State<'a>,
    pub(crate) fuel: u32,
    pub(crate) pairs: usize,
    pub(crate) objects: usize,
}

/// What a job comes to, and where it lacks an object.
#[derive(Drop)]
pub(crate) struct Found<'a> {
    pub(crate) outcome: Outcome,
    pub(crate) touches: Seq<(u16, Oid)>,
    pub(crate) downs: Seq<(u16, Value)>,
    pub(crate) at: Option<At<'a>>,
}

/// A job's method is begun, and run to the end or until an object lacks.
pub(crate) fn from_start<'a>(
    alloc: Global,
    program: &'a Resolved,
    job: &Job,
) -> Result<Found<'a>, NoMemory>
    requires program { program.now ≡ job.now.program.value }
    requires distinct { IsDistinct is_same (names_of job.now.answers) }
    requires made_before { list_any (λ a. is_made_in job.now.tid a.0) job.now.answers ≡ false }
    ensures { IfOk result (IsFound job.now) }
{
    let mut state = State::begin(alloc, job.tid, FUEL, job.answers.as_slice())?;
    let Some(first) = program.methods.as_slice().get(job.request.method as usize) else {
        return over(Ok(None), state);
    };
    let args = Seq::from_slice(alloc, job.request.args.as_slice())?;
    let locals = locals_at_start(first, args)?;
    let stack = begun(&mut state, first, locals)?;
    going(program, first, stack, state)
}

/// Goes on with an answer, from what is kept of a job or from its start.
pub(crate) fn with_answer<'a>(
    alloc: Global,
    program: &'a Resolved,
    job: &Job,
    at: Option<At<'a>>,
    oid: Oid,
    version: u32,
    object: Object,
) -> Result<Found<'a>, NoMemory>
    requires program { program.now ≡ job.now.program.value }
    requires distinct { IsDistinct is_same (names_of job.now.answers) }
    requires made_before { list_any (λ a. is_made_in job.now.tid a.0) job.now.answers ≡ false }
    requires resumes { Resumes job.now oid version object at }
    ensures { IfOk result (IsFound job.now) }
{
    let Some(at) = at else {
        return from_start(alloc, program, job);
    };
    let At {
        site: _,
        oid: _,
        first,
        stack,
        mut state,
        fuel,
        pairs,
        objects,
    } = at;
    state.go_back(fuel, pairs, objects);
    state.answer(oid, version, object)?;
    going(program, first, stack, state)
}

/// Runs what is left of a job.
fn going<'a>(
    program: &'a Resolved,
    first: &'a Method,
    stack: Vec<Entry<'a>>,
    state: State<'a>,
) -> Result<Found<'a>, NoMemory>
    requires { IsMatched stack.items state }
    ensures { IfOk result (λ found. (job : AnyJob) → program.now ≡ job.program.value → IsLeftOf job first.now stack.entry.items state.entry → IsFound job found) }
{
    let mut stack = stack;
    let mut state = state;
    match run(&Plain, program, first, &mut stack, &mut state)? {
        Way::Over(ended) => over(ended, state),
        Way::Lacks {
            site,
            oid,
            fuel,
            pairs,
            objects,
        } => lacking(At {
            site,
            oid,
            first,
            stack,
            state,
            fuel,
            pairs,
            objects,
        }),
    }
}

/// What a run came to that is over, from how it ended and the state at its end.
fn over<'a>(ended: Result<Option<Value>, End>, state: State<'a>) -> Result<Found<'a>, NoMemory>
    ensures settles { IfOk result (λ f. Settles ended state.entry f.outcome f.touches f.downs) }
    ensures at { IfOk result (λ f. f.at ≡ None) }
{
    let outcome = match ended {
        Ok(value) => {
            let (writes, creates) = state.changed()?;
            Outcome::Ended {
                value,
                writes,
                creates,
            }
        }
        Err(end) => outcome_at(end),
    };
    let (touches, downs) = state.into_notes()?;
    Ok(Found {
        outcome,
        touches,
        downs,
        at: None,
    })
}

fn outcome_at(end: End) -> Outcome
    ensures { result ≡ outcome_at [] (ending_at (end_of end)) (unchanged []) }
{
    match end {
        End::Failed => Outcome::Failed,
        End::Stopped(stop) => Outcome::Stopped(stop),
        End::Missing { site, oid } => Outcome::Need { site, oid },
    }
}

/// What a run came to that lacks an object.
fn lacking<'a>(at: At<'a>) -> Result<Found<'a>, NoMemory>
    ensures outcome { IfOk result (λ f. f.outcome ≡ Need at.entry.site at.entry.oid) }
    ensures touches { IfOk result (λ f. f.touches ≡ at.entry.state.state.touches) }
    ensures downs { IfOk result (λ f. f.downs ≡ at.entry.state.state.downs) }
    ensures at { IfOk result (λ f. f.at ≡ Some at.entry) }
{
    let (touches, downs) = at.state.notes()?;
    Ok(Found {
        outcome: Outcome::Need {
            site: at.site,
            oid: at.oid,
        },
        touches,
        downs,
        at: Some(at),
    })
}
