//! A law of bundles. The function does nothing: its contract is the law.

ghost use Rattle.std.specs.Prelude.{◌≡◌, None};
ghost use Rattle.fab_tree.specs.declared.start.Start.{Start};
ghost use Rattle.fab_tree.specs.Limits.{first_passed};
ghost use Rattle.fab_language.specs.Numbers.{resolved};
ghost use Rattle.fab_places.specs.Places.{HasNumbers};

/// Workers and stores of a bundle within the limits have numbers that a mask of 64 bits holds.
pub fn bundles_have_numbers()
    ensures { (s : Start) → first_passed s ≡ None → HasNumbers (resolved s) }
{}
