//! Laws of commits.
ghost use Rattle.std.specs.Prelude.{◌≡◌, ℕ, false, IsTrue, List};
ghost use Rattle.fab_world.specs.Machine.{Move, Setting, are_enabled, at_start};
ghost use Rattle.fab_world.specs.Serial.{commits_in};

/// A run's commits are those of nodes that aren't hostile, since hostile nodes have no events but posts.
pub fn commits_are_honest()
    ensures { (S : Setting) (moves : List Move) → IsTrue (are_enabled S (at_start S) moves)
        → commits_in S (λ n. false) moves ≡ commits_in S S.hostile moves }
{}
