//! What holds of every run that keeps crash lines.
ghost use Rattle.std.specs.Prelude.{ℕ, ◌≡◌};
ghost use Rattle.fab_lined.specs.Lined.{AreFew, CrashByLines, SumOverNodes};
ghost use Rattle.fab_world.specs.Machine.{Setting};
ghost use Rattle.fab_world.specs.Serial.{IsSetting};

/// In every run a node begins at most eight attempts for each request of its session, and eight more for each of its crashes
/// that no fault of its journal made; and it comes back at most once for each of these crashes. Where crash lines are kept, it has no
/// more of them than it has lines. And a run has no more attempts and recoveries than its nodes have together.
pub fn attempts_are_few()
    ensures few { (S : Setting) → AreFew S }
    ensures lines { (S : Setting) → CrashByLines S }
    ensures sum { (S : Setting) → IsSetting S → SumOverNodes S }
{}
