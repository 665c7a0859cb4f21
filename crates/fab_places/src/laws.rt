//! Laws of readers, writers and placement.

ghost use Rattle.std.specs.Prelude.{ℕ, IsBitSet};
ghost use Rattle.fab_base.specs.declared.label.Label.{Label as AnyLabel};
ghost use Rattle.fab_base.specs.Principals.{Delegations};
ghost use Rattle.fab_base.specs.Labels.{Flows};
ghost use Rattle.fab_tree.specs.declared.resolved.Resolved.{Resolved as AnyBundle};
ghost use Rattle.fab_labelling.specs.Readers.{IsReader, IsWriter};
ghost use Rattle.fab_labelling.specs.Placement.{MayWriteNumber, MayHoldNumber};
ghost use Rattle.fab_places.specs.Places.{ClassExcludes};

/// Where a label flows to another, whoever may read the other may read the one.
pub fn flows_narrow_readers()
    ensures { (d : Delegations) (a b : AnyLabel) (p : ℕ) → Flows d a b → IsReader d b p → IsReader d a p }
{}

/// Where a label flows to another, whoever may have influenced the one may have influenced the
/// other.
pub fn flows_widen_writers()
    ensures { (d : Delegations) (a b : AnyLabel) (p : ℕ) → Flows d a b → IsWriter d a p → IsWriter d b p }
{}

/// Nodes that may not have influenced the objects of a class may not write them, and may not hold
/// them.
pub fn outsiders_write_and_hold_nothing()
    ensures written { (r : AnyBundle) (d : Delegations) (nodes class n : ℕ)
        → ClassExcludes r d nodes class → IsBitSet nodes n → ¬ MayWriteNumber r d n class }
    ensures held { (r : AnyBundle) (d : Delegations) (nodes class n : ℕ)
        → ClassExcludes r d nodes class → IsBitSet nodes n → ¬ MayHoldNumber r d n class }
{}
