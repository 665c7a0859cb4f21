//! A law of failures, over every run of every setting. The function does nothing: its contract is the law.
ghost use Rattle.std.specs.Prelude.{◌≡◌, ◌++◌, ◌∷◌, List, IsTrue};
ghost use Rattle.fab_net.specs.declared.event.Inner.{Inner};
ghost use Rattle.fab_net.specs.Events.{node_of};
ghost use Rattle.fab_world.specs.Machine.{Move, Setting, World, are_enabled, failure, logs, runs};
ghost use Rattle.fab_failures.specs.Failures.{AreOthers, IsBrokenAt, cut_first, unmarked_log};

/// Where an event was cut before its first byte, and was its node's last one, a call of the journal may as well have
/// failed in it: the other events may come as they came, whatever is logged of them is the same, and so is the world
/// behind them, but that the node has failed for good.
pub fn failures_keep_the_run()
    ensures enabled { (S : Setting) (w : World) (front rest : List Move) (e : Inner) → AreOthers (node_of e) rest
        → IsTrue (are_enabled S w (front ++ cut_first e ∷ rest)) → IsTrue (are_enabled S w (front ++ failure e ∷ rest)) }
    ensures logged { (S : Setting) (w : World) (front rest : List Move) (e : Inner) → AreOthers (node_of e) rest
        → IsTrue (are_enabled S w (front ++ cut_first e ∷ rest))
        → unmarked_log (logs S w (front ++ failure e ∷ rest)) ≡ unmarked_log (logs S w (front ++ cut_first e ∷ rest)) }
    ensures world { (S : Setting) (w : World) (front rest : List Move) (e : Inner) → AreOthers (node_of e) rest
        → IsTrue (are_enabled S w (front ++ cut_first e ∷ rest))
        → IsBrokenAt (node_of e) (runs S w (front ++ cut_first e ∷ rest)) (runs S w (front ++ failure e ∷ rest)) }
{}
