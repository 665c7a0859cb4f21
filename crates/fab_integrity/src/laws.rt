//! What holds of every run.
ghost use Rattle.std.specs.Prelude.{ℕ, List};
ghost use Rattle.fab_world.specs.Crashing.{CrashLine, IsOver};
ghost use Rattle.fab_world.specs.Machine.{Move, Setting};
ghost use Rattle.fab_integrity.specs.Redone.{IsFaithful};
ghost use Rattle.fab_world.specs.Serial.{ArePosts, IsEnding, IsEvaluation, IsLeftOut, IsLive, IsOnce, IsRun, IsSerial, IsSetting, IsWaiting, world_of};

/// Whichever nodes are distrusted, as long as the hostile ones are among them: the objects of classes that
/// none of these may write or hold stand, at the stores that aren't distrusted, as the commits of the
/// other workers give them one after the other, in the order in which they were decided. Each of these
/// commits ends when it is evaluated again so; the requests of a worker rise, so that each is committed
/// once at most; and the commits of honest workers that are distrusted as well change none of these
/// objects. This is said of every run with at most 4,000,000,000 attempts and recoveries, whatever bytes
/// the hostile nodes send, with crashes at any event and cuts of any record at any byte.
///
/// Fabric (SOSP 2009) calls it the compositional guarantee: a node that is trusted by nobody who relies
/// on an object can't harm it.
pub fn integrity()
    ensures serial { (S : Setting) → IsSetting S → IsEvaluation S → IsSerial S }
    ensures ends { (S : Setting) → IsSetting S → IsEvaluation S → IsEnding S }
    ensures once { (S : Setting) → IsSetting S → IsOnce S }
    ensures left_out { (S : Setting) → IsSetting S → IsEvaluation S → IsLeftOut S }
    ensures faithful { (S : Setting) → IsSetting S → IsEvaluation S → IsFaithful S }
{}

/// No run gets stuck: as long as a worker that isn't hostile and hasn't failed for good has a request left,
/// some event may be done whole, or a post may come, where hostile nodes alone post.
pub fn runs_go_on()
    ensures { (S : Setting) → IsSetting S → IsEvaluation S → ArePosts S → IsLive S }
{}

/// A run that is over leaves nothing open: whichever crash lines there are, once no event is due by them, each
/// request of a worker that isn't hostile has an outcome, or the worker has failed for good. Hostile nodes
/// alone post. For an event that may be done whole is due as it is, or as the cut that a line makes of it, or
/// the crash of its node is due.
pub fn nothing_is_left()
    ensures { (S : Setting) → IsSetting S → IsEvaluation S → ArePosts S → (lines : ℕ → List CrashLine) (moves : List Move)
        → IsRun S moves → IsOver S lines moves → (n : ℕ) → IsWaiting S (world_of S moves) n → ⊥ }
{}
