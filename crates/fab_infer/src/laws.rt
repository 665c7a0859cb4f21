//! Laws of bundles with holes, over the definitions alone: what a caller of inference needs.
ghost use Rattle.std.specs.Prelude.{◌≡◌, ℕ, List, [], None};
ghost use Rattle.fab_tree.specs.declared.start.Start.{Start as Bundle};
ghost use Rattle.fab_tree.specs.Limits.{first_passed};
ghost use Rattle.fab_language.specs.Faults.{faults};
ghost use Rattle.fab_language.specs.Flows.{delegations_of};
ghost use Rattle.fab_language.specs.Numbers.{resolved};
ghost use Rattle.fab_authority.specs.Authority.{HasFew};
ghost use Rattle.fab_holes.specs.Holes.{IsNamed, filled};
ghost use Rattle.fab_holes.specs.Least.{IsChoice};
ghost use Rattle.fab_infer.specs.Small.{IsSmall};

/// A bundle that keeps the rules of names and types with the first declared label for each hole keeps
/// them with every choice of labels. And with labels for its holes it has as many of all that has a limit.
pub fn filled_bundles_keep_the_rules_of_names()
    ensures names { (start : Bundle) (choice : List ℕ) → IsNamed start → IsChoice start choice → faults (filled start choice) ≡ [] }
    ensures limits { (start : Bundle) (choice : List ℕ) → first_passed (filled start choice) ≡ first_passed start }
{}

/// Inference takes the numbered bundle, holes and all, if it takes the one with labels for these; a bundle
/// within the limits is small enough. And who acts for whom is the same.
pub fn numbered_bundles_are_taken()
    ensures few { (start : Bundle) (choice : List ℕ) → HasFew (resolved (filled start choice)) → HasFew (resolved start) }
    ensures small { (start : Bundle) → first_passed start ≡ None → IsSmall (resolved start) }
    ensures acts { (start : Bundle) (choice : List ℕ) → delegations_of (resolved (filled start choice)) ≡ delegations_of (resolved start) }
{}
