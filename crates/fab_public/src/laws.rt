//! Laws of the public replay.
ghost use Rattle.std.specs.Prelude.{◌≡◌, ◌++◌, ℕ, List};
ghost use Rattle.fab_release.specs.Replay.{public};
ghost use Rattle.fab_release.specs.Sights.{Public, Sight};
ghost use Rattle.fab_release.specs.declared.release.Released.{Released};

/// Where one record is the front of another, so is each list of messages.
pub fn replays_go_on()
    ensures { (sight : Sight) (P : Public) (xs ys : List Released) (n d : ℕ) → (rest : List (List ℕ)) × (public sight P (xs ++ ys) n d ≡ public sight P xs n d ++ rest) }
{}
