//! What a set of nodes sees of an accepted bundle.
ghost use Rattle.std.specs.Prelude.{◌≡◌, ℕ, Bool, [], None};
ghost use Rattle.fab_tree.specs.declared.start.Start.{Start};
ghost use Rattle.fab_tree.specs.declared.resolved.Resolved.{Resolved};
ghost use Rattle.fab_tree.specs.Limits.{first_passed};
ghost use Rattle.fab_language.specs.Faults.{faults};
ghost use Rattle.fab_language.specs.Numbers.{resolved};
ghost use Rattle.fab_labelling.specs.Claims.{IsWellLabelled};
ghost use Rattle.fab_erasure.specs.Agreement.{IsView};
ghost use Rattle.fab_views.specs.Views.{IsSeenBy, BundlesAgree};

/// For every bundle and every set of nodes there are the declared labels that some node of the set may read, and
/// the classes of which it may read the objects.
pub fn sets_of_nodes_see()
    ensures { (r : Resolved) (nodes : ℕ) → (sees : ℕ → Bool) × (shows : ℕ → Bool) × IsSeenBy r nodes sees shows }
{}

/// What a set of nodes may read of an accepted bundle is a view: who may read the label that something
/// flows to may read that from which it flows, classes are shown by their labels, each site stands at one
/// place, and values fit.
pub fn sets_of_nodes_have_views()
    ensures { (s : Start) (nodes : ℕ) (sees shows : ℕ → Bool) → first_passed s ≡ None → faults s ≡ [] → IsWellLabelled (resolved s)
        → IsSeenBy (resolved s) nodes sees shows → IsView sees shows (resolved s) }
{}

/// So erasing agrees with what is done, for every accepted bundle and every set of nodes.
pub fn bundles_agree()
    ensures { BundlesAgree }
{}
