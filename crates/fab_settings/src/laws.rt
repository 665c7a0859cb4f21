//! What holds of every accepted bundle.
ghost use Rattle.std.specs.Prelude.{ℕ, List};
ghost use Rattle.fab_tree.specs.declared.start.Start.{Start};
ghost use Rattle.fab_language.specs.Numbers.{resolved};
ghost use Rattle.fab_rights.specs.declared.rights.Rights.{Rights};
ghost use Rattle.fab_world.specs.Crashing.{IsOver};
ghost use Rattle.fab_world.specs.Machine.{Move};
ghost use Rattle.fab_world.specs.Serial.{ArePosts, IsEnding, IsEvaluation, IsLeftOut, IsLive, IsOnce, IsRun, IsSerial, IsSetting, IsWaiting, world_of};
ghost use Rattle.fab_settings.specs.Settings.{IsAcceptedWith, lines_of, setting_of};

/// The setting of an accepted bundle has what integrity asks of a setting: at most 64 nodes, each a worker
/// or a store; classes that only workers write and only stores hold; counts that messages can spell; roots
/// in the order of their names, each at a store that may hold it, of the shape of its class, with what
/// messages can spell, and made in no attempt; and bytes are read as the one message that they spell.
pub fn bundles_give_settings()
    ensures { (s : Start) (rights : Rights) → IsAcceptedWith s rights → IsSetting (setting_of (resolved s) rights) }
{}

/// What its requests mean is an evaluation: one that ended does the same over all objects that agree on
/// what it touched; nothing but what it wrote and made changes; what it wrote it touched, and what it made
/// is of its attempt; what is missing isn't there, and what was touched is; and over objects that fit, the
/// objects behind it fit, as do the names that it touches and misses and the value that it returns.
pub fn meanings_are_evaluations()
    ensures { (s : Start) (rights : Rights) → IsAcceptedWith s rights → IsEvaluation (setting_of (resolved s) rights) }
{}

/// So integrity holds of all runs of an accepted bundle, and nothing else is asked of it.
pub fn bundles_are_serial()
    ensures serial { (s : Start) (rights : Rights) → IsAcceptedWith s rights → IsSerial (setting_of (resolved s) rights) }
    ensures ends { (s : Start) (rights : Rights) → IsAcceptedWith s rights → IsEnding (setting_of (resolved s) rights) }
    ensures once { (s : Start) (rights : Rights) → IsAcceptedWith s rights → IsOnce (setting_of (resolved s) rights) }
    ensures left_out { (s : Start) (rights : Rights) → IsAcceptedWith s rights → IsLeftOut (setting_of (resolved s) rights) }
{}

/// And its runs go on. Nodes that aren't declared hostile have nothing to post. So as long as a worker that
/// isn't hostile and hasn't failed for good has a request left, some event may be done whole, or a post may
/// come. And once no event is due by the crash lines of the bundle, each request of such a worker has an
/// outcome.
pub fn bundles_go_on()
    ensures posts { (s : Start) (rights : Rights) → IsAcceptedWith s rights → ArePosts (setting_of (resolved s) rights) }
    ensures live { (s : Start) (rights : Rights) → IsAcceptedWith s rights → IsLive (setting_of (resolved s) rights) }
    ensures left { (s : Start) (rights : Rights) → IsAcceptedWith s rights → (moves : List Move) → IsRun (setting_of (resolved s) rights) moves
        → IsOver (setting_of (resolved s) rights) (lines_of (resolved s)) moves → (n : ℕ) → IsWaiting (setting_of (resolved s) rights) (world_of (setting_of (resolved s) rights) moves) n → ⊥ }
{}
