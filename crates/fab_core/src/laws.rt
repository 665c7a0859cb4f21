//! What holds of every core. The functions do nothing: their contracts are what they are for.

ghost use Rattle.std.specs.Prelude.{◌≡◌, ℕ, Bool};
ghost use Rattle.fab_world.specs.Crashing.{IsOver};
ghost use Rattle.fab_world.specs.Serial.{AllEnd, Excludes, GoesOn, IsRun, IsWaiting, Rise, commits_in, held_map, serial_replay, within};
ghost use Rattle.fab_settings.specs.Settings.{lines_of};
ghost use Rattle.fab_node.specs.Standing.{IsGiven};
ghost use Rattle.fab_core.specs.Cores.{setting, slot, world};
ghost use Rattle.fab_core.specs.Telling.{IsJournalAt};

use crate::core_state::Core;
use fab_device::Journal;

impl<J: Journal> Core<J> {
    /// Its moves are a run of an accepted bundle from the start, with so few attempts that no number comes
    /// to its end.
    pub fn is_a_run(&self)
        ensures given { IsGiven self.now.given }
        ensures run { IsRun (setting self.now.given) self.now.moves }
    {
        let _ = &self.given;
    }

    /// Whichever nodes are distrusted, if the hostile ones are among them: of the classes that no
    /// distrusted node may write or hold, what the others hold is what the commits of the others give, each
    /// evaluated in one whole, one after the other. Each of these evaluations ends, a request is committed
    /// once at most, and the commits of distrusted nodes that are not hostile may be left out.
    pub fn is_serial(&self)
        ensures serial { (D ex : ℕ → Bool) → Excludes (setting self.now.given) D ex
            → held_map (setting self.now.given) D ex (world self.now) ≡ serial_replay (setting self.now.given) ex (commits_in (setting self.now.given) D self.now.moves) }
        ensures ends { (D ex : ℕ → Bool) → Excludes (setting self.now.given) D ex
            → AllEnd (setting self.now.given) ex (within ex (setting self.now.given).roots) (commits_in (setting self.now.given) D self.now.moves) }
        ensures once { (D : ℕ → Bool) → Rise (commits_in (setting self.now.given) D self.now.moves) }
        ensures left_out { (D ex : ℕ → Bool) → Excludes (setting self.now.given) D ex
            → serial_replay (setting self.now.given) ex (commits_in (setting self.now.given) (setting self.now.given).hostile self.now.moves)
            ≡ serial_replay (setting self.now.given) ex (commits_in (setting self.now.given) D self.now.moves) }
    {
        self.is_a_run();
    }

    /// As long as a worker that isn't hostile and hasn't failed for good has a request left, some event may
    /// be done whole, or a post may come. Once no event is due by the crash lines of the bundle, no such
    /// worker has a request left.
    pub fn goes_on(&self)
        ensures live { (n : ℕ) → IsWaiting (setting self.now.given) (world self.now) n → GoesOn (setting self.now.given) (world self.now) }
        ensures left { IsOver (setting self.now.given) (lines_of self.now.given.program) self.now.moves
            → (n : ℕ) → IsWaiting (setting self.now.given) (world self.now) n → ⊥ }
    {
        self.is_a_run();
    }

    /// Honest nodes have journals, and no others. The journal of one that hasn't failed for good holds its
    /// header, the records of the run, and what is torn, and all but that is synced; the journal of one that
    /// has begins with its header and its records.
    pub fn journals_are(&self)
        ensures { (n : ℕ) → IsJournalAt self.now.given ((world self.now).node n) n (slot self.now.journals n) }
    {
        let _ = &self.nodes;
    }
}
