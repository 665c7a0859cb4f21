//! What holds of every replay. The function does nothing: its contract is what it is for.

ghost use Rattle.std.specs.Prelude.{◌≡◌, ◌≤◌, ℕ, Bool, IsTrue, List, Some, None, length};
ghost use Rattle.fab_device.specs.Kept.{Entry, Makers};
ghost use Rattle.fab_rights.specs.Computed.{has_bit};
ghost use Rattle.fab_listing.specs.Listing.{listing};
ghost use Rattle.fab_replay.specs.Isolated.{IsIsolated, IsSeeing, public_in};
ghost use Rattle.fab_world.specs.Machine.{Move};
ghost use Rattle.fab_world.specs.Serial.{IsRun};
ghost use Rattle.fab_node.specs.Standing.{GivenModel};
ghost use Rattle.fab_core.specs.Cores.{setting};
ghost use Rattle.fab_replay.specs.Kept.{HidesNone, IsCutShort};
ghost use Rattle.fab_replay.specs.Replays.{HasNoFault, Tells, events_of, first_mark, is_scheduled, moves_of, view_of};
ghost use Rattle.fab_replay.specs.declared.replayed.Replayed.{Replayed};
ghost use Rattle.fab_replay.specs.declared.replayed.Replayed.TheVariants.{JournalFault, NotEnabled};
ghost use Rattle.fab_replay.specs.declared.replayed.Wanted.{Wanted};

/// Of a schedule, answers that tell of no journal's fault are one. Where one says that an event may not come, the
/// whole schedule is no run.
pub fn replays_are_exact()
    ensures one { (g : GivenModel) (wanted : Wanted) (moves others : List Move) (x y : Replayed) → IsTrue (is_scheduled wanted)
        → IsRun (setting g) moves → IsRun (setting g) others → Tells g wanted moves x → Tells g wanted others y → HasNoFault x → HasNoFault y → x ≡ y }
    ensures barred { (g : GivenModel) (wanted : Wanted) (moves : List Move) (number : ℕ) → Tells g wanted moves (NotEnabled number) → IsRun (setting g) (moves_of (events_of g.program)) → ⊥ }
{}

/// Of one run there is one answer, whatever is wanted. It tells of a fault exactly where a journal failed in the
/// run, and then the node of the first event in which one did.
pub fn runs_have_one_answer()
    ensures one { (g : GivenModel) (wanted : Wanted) (moves : List Move) (x y : Replayed) → Tells g wanted moves x → Tells g wanted moves y → x ≡ y }
    ensures none { (g : GivenModel) (wanted : Wanted) (moves : List Move) (x : Replayed) → Tells g wanted moves x → HasNoFault x → first_mark moves ≡ None }
    ensures fault { (g : GivenModel) (wanted : Wanted) (moves : List Move) (node : ℕ) (bytes : List ℕ) → Tells g wanted moves (JournalFault node (Some bytes)) → first_mark moves ≡ Some node }
{}

/// What was sent into a set in an isolated run is, as a text, what the public replay gives.
pub fn views_are_public()
    ensures { (g : GivenModel) (moves : List Move) (nodes : ℕ) (sees shows : ℕ → Bool) → length g.program.nodes ≤ 64 → IsIsolated g moves → IsSeeing g nodes sees shows
        → view_of g nodes moves ≡ listing g.program (has_bit nodes) (public_in g nodes sees shows moves) }
{}

/// Where memory runs out in a run, no journal that is given back has failed, and unless a maker lost one, each that was
/// made is given back: so no journal's fault is told as want of memory by a run.
pub fn no_fault_is_hidden()
    ensures { (g : GivenModel) (wanted : Wanted) (old new : Makers) (had : List Entry) → IsCutShort g wanted old new → old.kept ≡ Some had → HidesNone old new had }
{}
