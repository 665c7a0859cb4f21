//! Laws of how runs end.
ghost use Rattle.fab_ended.specs.Bundles.{HasNoHostile, ReportsAreAnswered, ReportsAreFinal, ReportsEnd, RequestsAreFinal, RequestsEnd, RunsAreCalm};
ghost use Rattle.fab_ended.specs.Ended.{AreEnded, AreFinal};
ghost use Rattle.fab_ended.specs.Silence.{AreCalm, NoneGivesUp, NoneIsHostile, NoneIsSilent};
ghost use Rattle.fab_language.specs.Numbers.{resolved};
ghost use Rattle.fab_rights.specs.declared.rights.Rights.{Rights};
ghost use Rattle.fab_settings.specs.Settings.{IsAcceptedWith, setting_of};
ghost use Rattle.fab_tree.specs.declared.start.Start.{Start};
ghost use Rattle.fab_world.specs.Machine.{Setting};
ghost use Rattle.fab_world.specs.Serial.{ArePosts, IsEvaluation, IsSetting};

/// Behind a run that is over by its crash lines no request is open: each of a worker that isn't hostile has
/// an outcome that stays, or it is down, and then a journal call of the worker failed in the run. Where no
/// journal call failed none is down. The outcomes are those that a report shows, one for each request of the
/// worker's session. Hostile nodes alone post.
pub fn ended_requests_have_outcomes()
    ensures ended { (S : Setting) → IsSetting S → IsEvaluation S → ArePosts S → AreEnded S }
    ensures unmarked { (S : Setting) → IsSetting S → IsEvaluation S → ArePosts S → AreFinal S }
{}

/// Where no node is hostile and none goes down, nobody waits in vain: at no point of the run may a worker give
/// up waiting for a node, and so no request ends by a node's silence. For what is sent to a node waits there
/// until it is delivered; each Fetch and each Prepare is few enough bytes to be read, and a store answers it by
/// what its worker can read. So what a worker awaits is on its way, and somebody has something to hear. A run
/// that keeps to no crash lines, and in which no journal call failed, is one in which no node goes down.
pub fn nobody_is_silent()
    ensures calm { (S : Setting) → AreCalm S }
    ensures patient { (S : Setting) → IsSetting S → IsEvaluation S → NoneIsHostile S → NoneGivesUp S }
    ensures answered { (S : Setting) → IsSetting S → IsEvaluation S → NoneIsHostile S → NoneIsSilent S }
{}

/// So every accepted bundle ends, once its run is over by its crash lines: each request of each of its sessions
/// has an outcome that stays, or is down, and then a journal call of its worker failed; sessions are of honest
/// workers. In the report no line says that a request is open, and one says that it is down only under the name
/// of a node of which a journal call failed; where none failed no line says so.
pub fn bundles_end()
    ensures ended { (s : Start) (rights : Rights) → IsAcceptedWith s rights → RequestsEnd s rights }
    ensures unmarked { (s : Start) (rights : Rights) → IsAcceptedWith s rights → RequestsAreFinal s rights }
    ensures shown { (s : Start) (rights : Rights) → IsAcceptedWith s rights → ReportsEnd s rights }
    ensures shown_unmarked { (s : Start) (rights : Rights) → IsAcceptedWith s rights → ReportsAreFinal s rights }
{}

/// And where no node of an accepted bundle is declared hostile, and none goes down in the run, no worker may
/// ever give up, no request ends by silence, and no line of the report says so. Without crash lines no node
/// goes down in a run that keeps them, unless a journal call fails.
pub fn bundles_are_answered()
    ensures calm { (s : Start) (rights : Rights) → IsAcceptedWith s rights → RunsAreCalm s rights }
    ensures patient { (s : Start) (rights : Rights) → IsAcceptedWith s rights → HasNoHostile s → NoneGivesUp (setting_of (resolved s) rights) }
    ensures answered { (s : Start) (rights : Rights) → IsAcceptedWith s rights → HasNoHostile s → NoneIsSilent (setting_of (resolved s) rights) }
    ensures shown { (s : Start) (rights : Rights) → IsAcceptedWith s rights → HasNoHostile s → ReportsAreAnswered s rights }
{}
