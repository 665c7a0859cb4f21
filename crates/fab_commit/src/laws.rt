//! Laws of the commit of an attempt. The functions do nothing: their contracts are the laws.
ghost use Rattle.std.specs.Prelude.{◌≡◌, ◌↔◌, ℕ, true, List, [], ◌∷◌, ◌++◌};
ghost use Rattle.std.specs.List.{AllByRecursion, Contains};
ghost use Rattle.fab_base.specs.JournalSpelling.{AreStores, AscendFrom};
ghost use Rattle.fab_base.specs.declared.object.Tid.{Tid};
ghost use Rattle.fab_protocol.specs.Parts.{KeepsParts, stores_of};
ghost use Rattle.fab_protocol.specs.declared.parts.Parts.{Parts};
ghost use Rattle.fab_commit.specs.Coordinators.{AreAtNodes, all_voted as voted_yes, begun, verdict};
ghost use Rattle.fab_commit.specs.declared.verdict.Verdict.TheVariants.{Commit};

/// The stores that take part stand each once in the order of numbers, and are as few as a record of a
/// decision can list.
pub fn participants_are_few()
    ensures ascending { (parts : Parts) → AreAtNodes parts → AscendFrom 0 (stores_of parts) }
    ensures few { (parts : Parts) → KeepsParts parts → AreAtNodes parts → AreStores (stores_of parts) }
{}

/// Behind the Yes votes of these stores, the Yes of one more commits exactly where each store that takes
/// part has then voted.
pub fn all_voted()
    ensures { (tid : Tid) (stores votes : List ℕ) (store : ℕ)
        → (verdict store true (voted_yes votes (begun tid stores)).waiting ≡ Commit) ↔ AllByRecursion (Contains (votes ++ store ∷ [])) stores }
{}
