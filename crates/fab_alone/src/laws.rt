//! Laws of runs in which one worker is alone.
ghost use Rattle.std.specs.Prelude.{ℕ};
ghost use Rattle.fab_alone.specs.Alone.{RunsInTurn};
ghost use Rattle.fab_alone.specs.Bundles.{RunsAreEvaluated};
ghost use Rattle.fab_rights.specs.declared.rights.Rights.{Rights};
ghost use Rattle.fab_settings.specs.Settings.{IsAcceptedWith};
ghost use Rattle.fab_tree.specs.declared.start.Start.{Start};
ghost use Rattle.fab_world.specs.Machine.{Setting};
ghost use Rattle.fab_world.specs.Serial.{ArePosts, IsEvaluation, IsSetting};

/// Where one worker is alone, no node is hostile and none goes down, each run that is over comes to what the
/// worker's requests come to one after the other over the roots: the first is committed with its result, or
/// has failed, or was stopped at a limit, in its one attempt, then the second over the objects behind it, and
/// so on; and the stores hold the objects behind the last. The worker may fetch what its requests access, the
/// access at which one is stopped included, and write what they write and make; no request lacks an object;
/// and over more objects a request does the same. For each store has, behind the one Commit that may wait for
/// it, just these objects; so what is answered and cached is theirs, and nothing speaks against a Prepare.
pub fn alone_is_in_turn()
    ensures { (S : Setting) (n : ℕ) → IsSetting S → IsEvaluation S → ArePosts S → RunsInTurn S n }
{}

/// So it is with an accepted bundle that has one worker, no hostile node and no crash line: in each run that
/// keeps the lines, is over, and in which no journal call failed, each request of the worker's session ends as
/// `eval` says, in the attempt of its number, and the stores hold what `eval` says. The worker has to have the
/// rights on what its requests access, write and make; nothing else is asked of the bundle.
pub fn alone_is_eval()
    ensures { (s : Start) (rights : Rights) (n : ℕ) → IsAcceptedWith s rights → RunsAreEvaluated s rights n }
{}
