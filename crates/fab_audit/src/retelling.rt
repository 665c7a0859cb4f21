//! The events that a report tells, done again.

ghost use Rattle.std.specs.Prelude.{◌≡◌, ◌<◌, ◌≤◌, [], false, true, IfOk, length};
ghost use Rattle.fab_world.specs.Serial.{attempts};
ghost use Rattle.fab_audit.specs.Steps.{AreSure, ComesAsTold, RunsAsTold, cut_at_first};

use fab_base::NoMemory;
use fab_core::Core;
use fab_device::SureJournal;
use fab_evidence::Told;
use fab_net::{Event, Inner};
use fab_pauses::Evaluators;
use fab_replay::{Came, come_next, fail_next};
use fab_tree::resolved::Resolved;
use std::alloc::Global;

/// What is cut before its first byte, if the event is such a cut.
fn cut_at_first(event: Event) -> Option<Inner>
    ensures { result ≡ cut_at_first event }
{
    match event {
        Event::CrashIn(keep, inner) => { if keep == 0 { Some(inner) } else { None } }
        _ => None,
    }
}

/// An event with a mark comes, if it may: of these none but a cut before the first byte may.
#[tactic(auto, using(crate::proofs::Telling::failed_told, crate::proofs::Telling::never_told, crate::proofs::Telling::stays_sure))]
fn fails(
    alloc: Global,
    core: &mut Core<SureJournal>,
    evaluators: &mut Evaluators<'_>,
    event: Event,
) -> Result<bool, NoMemory>
    requires few { attempts core.old.moves < 4000000000 }
    requires program { evaluators.old.program ≡ core.old.given.program }
    requires sure { AreSure core.old.journals }
    ensures program { evaluators.new.program ≡ evaluators.old.program }
    ensures given { core.new.given ≡ core.old.given }
    ensures came { IfOk result (ComesAsTold core.old.given core.old.moves core.new.moves event true) }
    ensures sure { AreSure core.new.journals }
{
    match cut_at_first(event) {
        Some(inner) => fail_next(alloc, core, evaluators, inner),
        None => Ok(false),
    }
}

/// An event without a mark comes, if it may.
fn comes_whole(
    alloc: Global,
    core: &mut Core<SureJournal>,
    evaluators: &mut Evaluators<'_>,
    event: Event,
) -> Result<bool, NoMemory>
    requires few { attempts core.old.moves < 4000000000 }
    requires program { evaluators.old.program ≡ core.old.given.program }
    requires sure { AreSure core.old.journals }
    ensures program { evaluators.new.program ≡ evaluators.old.program }
    ensures given { core.new.given ≡ core.old.given }
    ensures came { IfOk result (ComesAsTold core.old.given core.old.moves core.new.moves event false) }
    ensures sure { IfOk result (λ _. AreSure core.new.journals) }
{
    match come_next(alloc, core, evaluators, event)? {
        Came::Whole => Ok(true),
        Came::Barred => Ok(false),
        Came::Cut => unreachable!(),
    }
}

/// An event that is told comes, if it may, and says whether it did.
fn comes(
    alloc: Global,
    core: &mut Core<SureJournal>,
    evaluators: &mut Evaluators<'_>,
    told: Told,
) -> Result<bool, NoMemory>
    requires few { attempts core.old.moves < 4000000000 }
    requires program { evaluators.old.program ≡ core.old.given.program }
    requires sure { AreSure core.old.journals }
    ensures program { evaluators.new.program ≡ evaluators.old.program }
    ensures given { core.new.given ≡ core.old.given }
    ensures came { IfOk result (ComesAsTold core.old.given core.old.moves core.new.moves told.event told.marked) }
    ensures sure { IfOk result (λ _. AreSure core.new.journals) }
{
    if told.marked {
        fails(alloc, core, evaluators, told.event)
    } else {
        comes_whole(alloc, core, evaluators, told.event)
    }
}

/// The events that are told come in order, up to the first that may not come, or that names no node; and says whether
/// all came. A job that comes again with one answer more goes on where it paused.
pub(crate) fn retell(
    alloc: Global,
    core: &mut Core<SureJournal>,
    program: &Resolved,
    told: &[Option<Told>],
) -> Result<bool, NoMemory>
    requires program { program.now ≡ core.old.given.program }
    requires few { length told.now ≤ 4194304 }
    requires moves { core.old.moves ≡ [] }
    requires sure { AreSure core.old.journals }
    ensures given { core.new.given ≡ core.old.given }
    ensures ran { IfOk result (RunsAsTold core.old.given told.now core.new.moves) }
{
    let mut evaluators = Evaluators::new(alloc, program)?;
    let mut rest = told;
    'events: while let Some((next, after)) = rest.split_first() {
        let Some(event) = *next else {
            return Ok(false);
        };
        let came = comes(alloc, core, &mut evaluators, event)?;
        if !came {
            return Ok(false);
        }
        rest = after;
    }
    Ok(true)
}
