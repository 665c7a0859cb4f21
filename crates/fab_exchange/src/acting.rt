//! An event comes, and is counted.
ghost use Rattle.std.specs.Prelude.{◌≡◌, ◌++◌, ◌∷◌, ◌+◌, ◌<◌, ◌^◌, List, [], IfOk, OnErr, length};
ghost use Rattle.std.specs.Option.{option_copied};
ghost use Rattle.fab_world.specs.Machine.{Move, form_of, node_of as node_in};
ghost use Rattle.fab_core.specs.Cores.{unmarked, world};
ghost use Rattle.fab_core.specs.Moved.{IsCut, IsMoved, move_by};
ghost use Rattle.fab_exchange.specs.Comings.{HasComeAs, IsAsBefore, IsFormed, MayBeMeasured, MayCome, MayFollow, MayGoOn, Measures};
ghost use Rattle.fab_exchange.specs.Exchanges.{AreCounts};
ghost use Rattle.fab_exchange.specs.Turns.{AreAsSure, ChangeAt, HasCome, NoneCame, node_with};

use crate::counting::Count;
use crate::events::{counted_in, crashed_in, whole};
use crate::exchange::Exchange;
use fab_base::NoMemory;
use fab_core::{Applied, Core};
use fab_device::Journal;
use fab_eval::Done;
use fab_net::{Event, Inner, node_at, node_of};

/// Counts an event, which came whole or was cut for its journal.
fn tally(counts: &mut Vec<Count>, event: Event, applied: Applied)
    ensures { (moves : List Move) → length moves + 1 < 2 ^ 64 → AreCounts moves counts.old.items → AreCounts (moves ++ move_by applied event ∷ []) counts.new.items }
{
    let place = usize::from(node_at(event));
    if place < counts.len() {
        let old = counts[place];
        counts[place] = Count {
            events: old.events.saturating_add(usize::from(counted_in(event))),
            crashes: old
                .crashes
                .saturating_add(usize::from(crashed_in(event, applied))),
        };
    }
}

/// An event comes. The call stands by itself for its proof.
fn apply<J: Journal>(
    core: &mut Core<J>,
    event: Event,
    done: Option<&Done>,
) -> Result<Applied, NoMemory>
    requires { MayCome core.old event (option_copied done) }
    ensures moved { IsMoved event result core.old core.new }
    ensures journals { ChangeAt (node_with (world core.old) (form_of (unmarked event))) (IsCut result) core.old.journals core.new.journals }
{
    core.journals_are();
    let applied = core.apply(event, done);
    core.journals_are();
    applied
}

/// How long the record of an event is that may come, if it writes one, as `apply` by itself.
fn length_of<J: Journal>(
    core: &mut Core<J>,
    inner: Inner,
    done: Option<&Done>,
) -> Result<Option<u32>, NoMemory>
    requires { MayBeMeasured core.old inner (option_copied done) }
    ensures length { IfOk result (Measures core.old inner) }
    ensures kept { IsAsBefore core.old core.new }
{
    core.record_len(&whole(inner), done)
}

impl<J: Journal> Exchange<J> {
    /// An event that may follow comes.
    pub(crate) fn enact(&mut self, event: Event, done: Option<&Done>) -> Result<(), NoMemory>
        requires { MayFollow self.old event (option_copied done) }
        ensures given { self.new.given ≡ self.old.given }
        ensures came { IfOk result (λ _. HasCome (node_with (world self.old) (form_of (unmarked event))) event self.old self.new) }
        ensures memory { OnErr result (NoneCame (node_with (world self.old) (form_of (unmarked event))) self.old self.new) }
        ensures sure { AreAsSure self.old.journals self.new.journals }
    {
        self.core.is_a_run();
        let applied = apply(&mut self.core, event, done)?;
        self.core.is_a_run();
        let _events = self.core.log().len();
        tally(&mut self.counts, event, applied);
        Ok(())
    }

    /// The event of a node that comes, as the lines have it: whole, or cut.
    fn event_for(&mut self, inner: Inner, done: Option<&Done>) -> Result<Event, NoMemory>
        requires { MayGoOn self.old inner (option_copied done) }
        ensures event { IfOk result (IsFormed self.old inner (option_copied done.entry)) }
        ensures kept { IsAsBefore self.old self.new }
    {
        self.core.is_a_run();
        let Some(line) = self.line_of(node_of(inner)) else {
            return Ok(whole(inner));
        };
        let Some(keep) = line.keep else {
            return Ok(whole(inner));
        };
        let Some(length) = length_of(&mut self.core, inner, done)? else {
            return Ok(whole(inner));
        };
        Ok(Event::CrashIn(keep.min(length), inner))
    }

    /// An event of a node comes, as the lines have it.
    pub(crate) fn does(&mut self, inner: Inner, done: Option<&Done>) -> Result<(), NoMemory>
        requires { MayGoOn self.old inner (option_copied done) }
        ensures given { self.new.given ≡ self.old.given }
        ensures came { IfOk result (λ _. HasComeAs inner self.old self.new) }
        ensures memory { OnErr result (NoneCame (node_in inner) self.old self.new) }
        ensures sure { AreAsSure self.old.journals self.new.journals }
    {
        let event = self.event_for(inner, done)?;
        self.enact(event, done)
    }
}
