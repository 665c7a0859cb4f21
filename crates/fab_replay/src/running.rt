//! The events of a schedule, one after the other.

ghost use Rattle.std.specs.Prelude.{◌≡◌, ◌<◌, ◌≤◌, ◌&&◌, [], false, true, Option, IsTrue, IfOk, OnErr, length};
ghost use Rattle.std.specs.Option.{option_copied};
ghost use Rattle.fab_net.specs.declared.event.Event.TheVariants.{CrashIn};
ghost use Rattle.fab_world.specs.Machine.{Fails, enabled, is_running, may};
ghost use Rattle.fab_world.specs.Serial.{attempts};
ghost use Rattle.fab_world.specs.Workers.{Evaluating};
ghost use Rattle.fab_core.specs.Cores.{HasDone, setting, world};
ghost use Rattle.fab_eval.specs.declared.done.Done.{Done as AnyDone};
ghost use Rattle.fab_pauses.specs.Evaluations.{last_of};
ghost use Rattle.fab_replay.specs.Kept.{IsFrontRun};
ghost use Rattle.fab_replay.specs.Running.{AreBehind, ComesBy, ComesTo, ComesWith, FailsNext, IsLastDone, IsLastTold, MayCome, failed_by, fails_by, is_recovery};

use crate::events::event_of;
use fab_base::NoMemory;
use fab_core::{Applied, Core};
use fab_device::Journal;
use fab_eval::Done;
use fab_net::{Event, Inner, node_at};
use fab_pauses::Evaluators;
use fab_tree::resolved::Resolved;
use std::alloc::Global;

/// What became of one event: it came; it came up to its record, since the journal failed; or it may not
/// come.
#[derive(Clone, Copy, Debug)]
pub enum Came {
    Whole,
    Cut,
    Barred,
}

/// How far a schedule came: to its end; to the event of this number, from 1, which may not come; or into
/// an event of this node, whose journal failed.
#[derive(Clone, Copy, Debug)]
pub(crate) enum Ran {
    Through,
    Barred { event: u32 },
    Cut { node: u16 },
}

/// Goes on with the last answer of a worker, where its job is the last one with this answer more, and that one paused for it; and says
/// whether it did. This answer alone is copied. Without memory the last job stays.
fn went_on<J: Journal>(
    alloc: Global,
    core: &Core<J>,
    evaluators: &mut Evaluators<'_>,
    worker: u16,
) -> Result<bool, NoMemory>
    requires { evaluators.old.program ≡ core.now.given.program }
    ensures program { evaluators.new.program ≡ evaluators.old.program }
    ensures last { IfOk result (λ went. went ≡ true → IsLastTold core.now.given core.now.moves worker (last_of evaluators.new worker)) }
{
    let Some(done) = evaluators.done(worker) else {
        return Ok(false);
    };
    match core.answer_behind(worker, &done.job) {
        Some(answer) => {
            let object = answer.2.copy(alloc)?;
            evaluators.go_on(worker, answer.0, answer.1, object)
        }
        None => Ok(false),
    }
}

/// Evaluates the job of a worker, if there is one: by which evaluator. A job that doesn't go on is copied whole.
fn evaluated<J: Journal>(
    alloc: Global,
    core: &Core<J>,
    evaluators: &mut Evaluators<'_>,
    worker: u16,
) -> Result<Option<u16>, NoMemory>
    requires { evaluators.old.program ≡ core.now.given.program }
    ensures program { evaluators.new.program ≡ evaluators.old.program }
    ensures done { IfOk result (λ at. (done : Option AnyDone) → IsLastDone evaluators.new at done → IsTrue (is_running (setting core.now.given) (world core.now) worker)
        → ((world core.now).node worker).attempt.phase ≡ Evaluating → HasDone core.now.given (world core.now) worker done) }
{
    core.is_a_run();
    let went = went_on(alloc, core, evaluators, worker)?;
    if went {
        return Ok(Some(worker));
    }
    match core.job(worker)? {
        Some(job) => {
            evaluators.evaluate(worker, job)?;
            Ok(Some(worker))
        }
        None => Ok(None),
    }
}

/// Makes the evaluation that an event takes, if it takes one: by which evaluator.
#[tactic(auto, using(crate::proofs::Resting::resumes_with, crate::proofs::Resting::crashes_with))]
fn evaluated_for<J: Journal>(
    alloc: Global,
    core: &Core<J>,
    evaluators: &mut Evaluators<'_>,
    event: Event,
) -> Result<Option<u16>, NoMemory>
    requires { evaluators.old.program ≡ core.now.given.program }
    ensures program { evaluators.new.program ≡ evaluators.old.program }
    ensures done { IfOk result (λ at. (done : Option AnyDone) → IsLastDone evaluators.new at done → ComesWith core.now.given core.now.moves event done) }
{
    match event {
        Event::Resume(worker) => evaluated(alloc, core, evaluators, worker),
        Event::CrashIn(_, Inner::Resume(worker)) => evaluated(alloc, core, evaluators, worker),
        _ => Ok(None),
    }
}

/// What the last evaluation came to of an evaluator, if there is one.
fn done_at<'e>(evaluators: &'e Evaluators<'_>, at: Option<u16>) -> Option<&'e Done>
    ensures { IsLastDone evaluators.now at (option_copied result) }
{
    match at {
        Some(worker) => evaluators.done(worker),
        None => None,
    }
}

/// An event that may come comes.
fn enact<J: Journal>(
    core: &mut Core<J>,
    event: Event,
    done: Option<&Done>,
) -> Result<Came, NoMemory>
    requires may { MayCome core.old.given core.old.moves event }
    requires done { ComesWith core.old.given core.old.moves event (option_copied done) }
    requires few { attempts core.old.moves < 4000000000 }
    ensures given { core.new.given ≡ core.old.given }
    ensures came { IfOk result (ComesBy core.old.given event core.old.moves core.new.moves) }
    ensures journals { IfOk result (λ came. AreBehind (fails_by event came) core.old.journals core.new.journals) }
    ensures memory { OnErr result (core.new.moves ≡ core.old.moves) }
    ensures still { OnErr result (AreBehind (λ n. false) core.old.journals core.new.journals) }
{
    match core.apply(event, done)? {
        Applied::Whole => Ok(Came::Whole),
        Applied::Cut => Ok(Came::Cut),
    }
}

/// One event comes, if it may, with the evaluation that it takes.
fn come<J: Journal>(core: &mut Core<J>, event: Event, done: Option<&Done>) -> Result<Came, NoMemory>
    requires done { ComesWith core.old.given core.old.moves event (option_copied done) }
    requires few { attempts core.old.moves < 4000000000 }
    ensures given { core.new.given ≡ core.old.given }
    ensures came { IfOk result (ComesBy core.old.given event core.old.moves core.new.moves) }
    ensures journals { IfOk result (λ came. AreBehind (fails_by event came) core.old.journals core.new.journals) }
    ensures memory { OnErr result (core.new.moves ≡ core.old.moves) }
    ensures still { OnErr result (AreBehind (λ n. false) core.old.journals core.new.journals) }
{
    let may = core.enabled(&event, done)?;
    if !may {
        return Ok(Came::Barred);
    }
    enact(core, event, done)
}

/// One event comes, if it may. A job that comes again with one answer more goes on where it paused.
pub fn come_next<J: Journal>(
    alloc: Global,
    core: &mut Core<J>,
    evaluators: &mut Evaluators<'_>,
    event: Event,
) -> Result<Came, NoMemory>
    requires few { attempts core.old.moves < 4000000000 }
    requires program { evaluators.old.program ≡ core.old.given.program }
    ensures program { evaluators.new.program ≡ evaluators.old.program }
    ensures given { core.new.given ≡ core.old.given }
    ensures came { IfOk result (ComesBy core.old.given event core.old.moves core.new.moves) }
    ensures journals { IfOk result (λ came. AreBehind (fails_by event came) core.old.journals core.new.journals) }
    ensures memory { OnErr result (core.new.moves ≡ core.old.moves) }
    ensures still { OnErr result (AreBehind (λ n. false) core.old.journals core.new.journals) }
{
    let at = evaluated_for(alloc, core, evaluators, event)?;
    come(core, event, done_at(evaluators, at))
}

/// Whether it is a recovery, and may come.
fn recovers<J: Journal>(core: &Core<J>, inner: Inner) -> bool
    ensures { result ≡ (is_recovery inner && may (setting core.now.given) (world core.now) inner) }
{
    match inner {
        Inner::Recover(node) => core.may_whole(Event::Recover(node)),
        _ => false,
    }
}

/// Whether a call of the journal of its node may fail in an event now: where it writes a record, which may then be cut before its first byte,
/// and in each recovery.
#[tactic(auto, using(crate::proofs::Failing::may_fail))]
fn may_fail<J: Journal>(
    core: &mut Core<J>,
    inner: Inner,
    done: Option<&Done>,
) -> Result<bool, NoMemory>
    requires done { ComesWith core.old.given core.old.moves (CrashIn 0 inner) (option_copied done) }
    requires few { attempts core.old.moves < 4000000000 }
    ensures given { core.new.given ≡ core.old.given }
    ensures answer { IfOk result (λ may. may ≡ enabled (setting core.old.given) (world core.old) (Fails 0 inner)) }
    ensures moves { core.new.moves ≡ core.old.moves }
    ensures journals { AreBehind (λ n. false) core.old.journals core.new.journals }
{
    let recovers = recovers(core, inner);
    let cut = core.enabled(&Event::CrashIn(0, inner), done)?;
    Ok(recovers || cut)
}

/// An event in which a call of the journal of its node counts as having failed comes, if it may, and says whether it did. Nothing is asked
/// of a journal.
pub fn fail_next<J: Journal>(
    alloc: Global,
    core: &mut Core<J>,
    evaluators: &mut Evaluators<'_>,
    inner: Inner,
) -> Result<bool, NoMemory>
    requires few { attempts core.old.moves < 4000000000 }
    requires program { evaluators.old.program ≡ core.old.given.program }
    ensures program { evaluators.new.program ≡ evaluators.old.program }
    ensures given { core.new.given ≡ core.old.given }
    ensures failed { IfOk result (FailsNext core.old.given inner core.old.moves core.new.moves) }
    ensures memory { OnErr result (core.new.moves ≡ core.old.moves) }
    ensures journals { AreBehind (λ n. false) core.old.journals core.new.journals }
{
    let at = evaluated_for(alloc, core, evaluators, Event::CrashIn(0, inner))?;
    fail_with(core, inner, done_at(evaluators, at))
}

/// The same, with the evaluation that it takes.
fn fail_with<J: Journal>(
    core: &mut Core<J>,
    inner: Inner,
    done: Option<&Done>,
) -> Result<bool, NoMemory>
    requires done { ComesWith core.old.given core.old.moves (CrashIn 0 inner) (option_copied done) }
    requires few { attempts core.old.moves < 4000000000 }
    ensures given { core.new.given ≡ core.old.given }
    ensures failed { IfOk result (FailsNext core.old.given inner core.old.moves core.new.moves) }
    ensures memory { OnErr result (core.new.moves ≡ core.old.moves) }
    ensures journals { AreBehind (λ n. false) core.old.journals core.new.journals }
{
    let may = may_fail(core, inner, done)?;
    if may {
        core.fail(inner)?;
    }
    Ok(may)
}

/// The events of the schedule come in order, up to the first that may not come or in which a journal fails. A job that comes again with
/// one answer more goes on where it paused. Without memory a front of them has come.
pub(crate) fn run<J: Journal>(
    alloc: Global,
    core: &mut Core<J>,
    program: &Resolved,
) -> Result<Ran, NoMemory>
    requires program { program.now ≡ core.old.given.program }
    requires few { length program.now.schedule ≤ 100000 }
    requires moves { core.old.moves ≡ [] }
    ensures given { core.new.given ≡ core.old.given }
    ensures ran { IfOk result (ComesTo core.old.given core.new.moves) }
    ensures journals { IfOk result (λ ran. AreBehind (failed_by ran) core.old.journals core.new.journals) }
    ensures memory { OnErr result (IsFrontRun core.old.given core.new.moves) }
    ensures still { OnErr result (AreBehind (λ n. false) core.old.journals core.new.journals) }
{
    let mut evaluators = Evaluators::new(alloc, program)?;
    let mut number = 0;
    let mut rest = program.schedule.as_slice();
    'events: while let Some((scheduled, after)) = rest.split_first() {
        let event = event_of(*scheduled);
        number += 1;
        match come_next(alloc, core, &mut evaluators, event)? {
            Came::Whole => {}
            Came::Cut => {
                return Ok(Ran::Cut {
                    node: node_at(event),
                });
            }
            Came::Barred => return Ok(Ran::Barred { event: number }),
        }
        rest = after;
    }
    Ok(Ran::Through)
}
