//! Laws of recovery. The functions do nothing: their contracts are the laws.

ghost use Rattle.std.specs.Prelude.{◌≡◌, ◌↔◌, ◌++◌, ℕ, List};
ghost use Rattle.fab_base.specs.FlatMap.{FlatMap};
ghost use Rattle.fab_base.specs.declared.entry.Entry.{Entry};
ghost use Rattle.fab_rights.specs.declared.rights.Rights.{Rights as AnyRights};
ghost use Rattle.fab_protocol.specs.Stores.{Shelf, shelf_at_start, shelf_of};
ghost use Rattle.fab_store.specs.Histories.{AreReadable, Heard, behind_all, records_of};
ghost use Rattle.fab_store.specs.Stock.{AreKept, shelf_behind};

/// Whatever a store has heard, its records may be kept, one behind the other, and make of the roots
/// the shelf that the store has.
pub fn recovery_gives_the_store()
    ensures kept { (rights : AnyRights) (s : ℕ) (roots : FlatMap) (heard : List Heard) → AreReadable heard
        → AreKept rights s (records_of rights s heard (shelf_at_start roots s)) (shelf_at_start roots s) }
    ensures shelf { (rights : AnyRights) (s : ℕ) (roots : FlatMap) (heard : List Heard)
        → shelf_of roots s (records_of rights s heard (shelf_at_start roots s)) ≡ behind_all rights s heard (shelf_at_start roots s) }
{}

/// Records may be kept, one behind the other, exactly where some first of them may and the others behind
/// these: so any front of what may be kept may be kept. Behind the roots' shelf records leave the shelf
/// that is theirs.
pub fn kept_in_a_row()
    ensures kept { (rights : AnyRights) (s : ℕ) (first second : List Entry) (shelf : Shelf)
        → AreKept rights s (first ++ second) shelf ↔ (AreKept rights s first shelf × AreKept rights s second (shelf_behind first shelf)) }
    ensures shelf { (roots : FlatMap) (s : ℕ) (entries : List Entry) → shelf_of roots s entries ≡ shelf_behind entries (shelf_at_start roots s) }
{}
