//! What holds of every accepted bundle.
ghost use Rattle.std.specs.Prelude.{◌≤◌, List, length};
ghost use Rattle.fab_finite.specs.Finite.{EndsByStarts, TouchesWhatWasMissing, most};
ghost use Rattle.fab_language.specs.Numbers.{resolved};
ghost use Rattle.fab_rights.specs.declared.rights.Rights.{Rights};
ghost use Rattle.fab_settings.specs.Settings.{IsAcceptedWith, lines_of, setting_of};
ghost use Rattle.fab_tree.specs.declared.start.Start.{Start};
ghost use Rattle.fab_world.specs.Crashing.{KeepsLines};
ghost use Rattle.fab_world.specs.Machine.{Move};

/// What a request lacks it touches, once it is there. So no run of an accepted bundle has more moves than a number that its
/// attempts and recoveries give, and none that keeps the bundle's crash lines more than one that the bundle alone gives.
pub fn bundles_are_finite()
    ensures touches { (s : Start) (rights : Rights) → IsAcceptedWith s rights → TouchesWhatWasMissing (setting_of (resolved s) rights) }
    ensures starts { (s : Start) (rights : Rights) → IsAcceptedWith s rights → EndsByStarts (setting_of (resolved s) rights) }
    ensures lines { (s : Start) (rights : Rights) → IsAcceptedWith s rights → (moves : List Move)
        → KeepsLines (setting_of (resolved s) rights) (lines_of (resolved s)) moves
        → length moves ≤ most (setting_of (resolved s) rights) (lines_of (resolved s)) }
{}
