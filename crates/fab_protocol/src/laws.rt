//! Laws of a store's shelf.
ghost use Rattle.std.specs.Prelude.{◌≡◌, ◌↔◌, ℕ, ◌<◌, ◌≤◌, ◌^◌, Bool, IsTrue, IsFalse, List, [], ◌∷◌, ◌++◌, length};
ghost use Rattle.std.specs.Prelude.{Option, Some, None, IfSome};
ghost use Rattle.std.specs.List.{AllByRecursion, Contains};
ghost use Rattle.fab_base.specs.FlatMap.{FlatMap, ascends, is_among};
ghost use Rattle.fab_base.specs.MessageSpelling.{KeepsCounts};
ghost use Rattle.fab_base.specs.Tids.{is_above};
ghost use Rattle.fab_base.specs.declared.entry.Entry.TheVariants.{Applied, Refused};
ghost use Rattle.fab_base.specs.declared.entry.Entry.{Entry};
ghost use Rattle.fab_base.specs.declared.message.Answer.TheVariants.{OldTid, Yes};
ghost use Rattle.fab_base.specs.declared.message.Answer.{Answer};
ghost use Rattle.fab_base.specs.declared.message.Items.{Items};
ghost use Rattle.fab_base.specs.declared.message.Message.TheVariants.{Prepare};
ghost use Rattle.fab_base.specs.declared.message.Message.{Message};
ghost use Rattle.fab_base.specs.declared.object.Object.{Object};
ghost use Rattle.fab_base.specs.declared.object.Oid.{Oid};
ghost use Rattle.fab_base.specs.declared.object.Tid.{Tid};
ghost use Rattle.fab_rights.specs.Computed.{is_worker};
ghost use Rattle.fab_rights.specs.declared.rights.Rights.{Rights};
ghost use Rattle.fab_protocol.specs.Shelves.{CanKeep, IsShelf};
ghost use Rattle.fab_protocol.specs.Stores.{Item, Shelf, all_in, boot_of, changed_by, hears, is_own, is_prepared, keeps};
ghost use Rattle.fab_protocol.specs.Stores.{keeps_said, lacks_right, last_of, prepared_as, reasons, says, sender_in};
ghost use Rattle.fab_protocol.specs.Stores.{shelf_at_start, shelf_of, silent, vote, votes};
ghost use Rattle.fab_protocol.specs.Tables.{row_of};
ghost use Rattle.fab_protocol.specs.Versions.{Row, begun, is_tid, name_of, raised, risen, version_of};

/// The shelf behind one more record is what the record makes of the shelf before.
pub fn folds_go_on()
    ensures { (roots : FlatMap) (s : ℕ) (entries : List Entry) (entry : Entry)
        → shelf_of roots s (entries ++ entry ∷ []) ≡ keeps entry (shelf_of roots s entries) }
{}

/// What a store records at a message is what its rules let it keep.
pub fn says_only_what_can_be_kept()
    ensures { (rights : Rights) (s n : ℕ) (message : Message) (shelf : Shelf) (entry : Entry) → KeepsCounts message
        → (says rights s n message shelf).entry ≡ Some entry → CanKeep rights s entry shelf }
{}

/// Each record that a store may keep keeps what holds of its shelf.
pub fn records_keep_shelves()
    ensures { (rights : Rights) (s : ℕ) (entry : Entry) (shelf : Shelf) → rights.workers < 2 ^ 64 → CanKeep rights s entry shelf
        → IsShelf rights s shelf → IsShelf rights s (keeps entry shelf) }
{}

/// Roots in the order of names, of few fields each, begin a shelf at each store.
pub fn start_is_a_shelf()
    ensures { (rights : Rights) (roots : FlatMap) (s : ℕ) → IsTrue (ascends roots)
        → AllByRecursion (λ root. length root.1.fields ≤ 16) roots → IsShelf rights s (shelf_at_start roots s) }
{}

/// Whatever a store hears, a message of any sender or bytes that are none, its shelf stays one.
pub fn messages_keep_shelves()
    ensures { (rights : Rights) (s n : ℕ) (heard : Option Message) (shelf : Shelf) → rights.workers < 2 ^ 64 → IfSome heard KeepsCounts
        → IsShelf rights s shelf → IsShelf rights s (keeps_said (hears rights s n heard shelf).entry shelf) }
{}

/// A sender that is no worker is answered by silence, and so is a message that isn't the sender's. A vote
/// is Yes exactly where no reason to refuse holds, so never where an item lacks a right; and another vote
/// is the answer of a reason that holds.
pub fn no_yes_without_rights()
    ensures silent { (rights : Rights) (s n : ℕ) (heard : Option Message) (shelf : Shelf) → IsFalse (is_worker rights n)
        → hears rights s n heard shelf ≡ silent }
    ensures dropped { (rights : Rights) (s n : ℕ) (message : Message) (shelf : Shelf) → IsFalse (is_own n message)
        → says rights s n message shelf ≡ silent }
    ensures lacking { (rights : Rights) (s n : ℕ) (t : Tid) (items : Items) (shelf : Shelf) (i : Item) → Contains (all_in items) i
        → IsTrue (lacks_right rights n i) → vote rights s n t items shelf ≡ Yes → ⊥ }
    ensures refused { (rights : Rights) (s n : ℕ) (t : Tid) (items : Items) (shelf : Shelf) (r : Bool × Answer)
        → Contains (reasons rights s n t items shelf) r → IsTrue r.0 → vote rights s n t items shelf ≡ Yes → ⊥ }
    ensures exact { (rights : Rights) (s n : ℕ) (t : Tid) (items : Items) (shelf : Shelf)
        → (vote rights s n t items shelf ≡ Yes) ↔ AllByRecursion (λ r. IsFalse r.0) (reasons rights s n t items shelf) }
    ensures cause { (rights : Rights) (s n : ℕ) (t : Tid) (items : Items) (shelf : Shelf) → (vote rights s n t items shelf ≡ Yes → ⊥)
        → (r : Bool × Answer) × Contains (reasons rights s n t items shelf) r × IsTrue r.0 × (vote rights s n t items shelf ≡ r.1) }
{}

/// A vote on a new tid that isn't Yes is sent, and recorded as refused. Behind that record no object,
/// prepared transaction or boot is another than before, and no last tid but that of the sender, which is
/// this one. An old tid leaves no record, and is told the last one.
pub fn a_no_leaves_all_but_the_last_tid()
    ensures recorded { (rights : Rights) (s : ℕ) (t : Tid) (items : Items) (shelf : Shelf) → IsTrue (is_worker rights t.worker)
        → IsTrue (is_above t (last_of shelf t.worker)) → (vote rights s t.worker t items shelf ≡ Yes → ⊥)
        → says rights s t.worker (Prepare t items) shelf ≡ votes t.worker t (vote rights s t.worker t items shelf) (Some (Refused t)) }
    ensures rows { (t : Tid) (shelf : Shelf) → (keeps (Refused t) shelf).rows ≡ shelf.rows }
    ensures prepared { (t : Tid) (shelf : Shelf) → (keeps (Refused t) shelf).prepared ≡ shelf.prepared }
    ensures senders { (t : Tid) (shelf : Shelf) (n : ℕ) → (n ≡ t.worker → ⊥)
        → sender_in (keeps (Refused t) shelf).senders n ≡ sender_in shelf.senders n }
    ensures as_many { (t : Tid) (shelf : Shelf) → length (keeps (Refused t) shelf).senders ≡ length shelf.senders }
    ensures boots { (t : Tid) (shelf : Shelf) (n : ℕ) → boot_of (keeps (Refused t) shelf) n ≡ boot_of shelf n }
    ensures last { (t : Tid) (shelf : Shelf) → t.worker < length shelf.senders → last_of (keeps (Refused t) shelf) t.worker ≡ t }
    ensures old { (rights : Rights) (s : ℕ) (t : Tid) (items : Items) (shelf : Shelf) → IsTrue (is_worker rights t.worker)
        → IsFalse (is_above t (last_of shelf t.worker))
        → says rights s t.worker (Prepare t items) shelf ≡ votes t.worker t (OldTid (last_of shelf t.worker)) None }
{}

/// Behind the record of a commit each object that its transaction wrote has the version behind the one
/// that was read, which was the current one; each that it made, which wasn't there, has version 1; under
/// every other name there is what was there. The transaction is prepared no longer, and others are still.
pub fn commits_apply_what_is_prepared()
    ensures written { (rights : Rights) (s : ℕ) (shelf : Shelf) (t : Tid) (items : Items) (w : Row) → IsShelf rights s shelf
        → Contains shelf.prepared (t, items) → Contains items.writes w
        → row_of name_of (keeps (Applied t) shelf).rows w.0 ≡ Some (raised w) }
    ensures current { (rights : Rights) (s : ℕ) (shelf : Shelf) (t : Tid) (items : Items) (w : Row) → IsShelf rights s shelf
        → Contains shelf.prepared (t, items) → Contains items.writes w → version_of shelf.rows w.0 ≡ w.1 }
    ensures rises { (rights : Rights) (s : ℕ) (shelf : Shelf) (t : Tid) (items : Items) (w : Row) → IsShelf rights s shelf
        → Contains shelf.prepared (t, items) → Contains items.writes w
        → version_of (keeps (Applied t) shelf).rows w.0 ≡ risen (version_of shelf.rows w.0) }
    ensures made { (rights : Rights) (s : ℕ) (shelf : Shelf) (t : Tid) (items : Items) (c : Oid × Object) → IsShelf rights s shelf
        → Contains shelf.prepared (t, items) → Contains items.creates c
        → row_of name_of (keeps (Applied t) shelf).rows c.0 ≡ Some (begun c) }
    ensures new { (rights : Rights) (s : ℕ) (shelf : Shelf) (t : Tid) (items : Items) (c : Oid × Object) → IsShelf rights s shelf
        → Contains shelf.prepared (t, items) → Contains items.creates c → row_of name_of shelf.rows c.0 ≡ None }
    ensures unchanged { (rights : Rights) (s : ℕ) (shelf : Shelf) (t : Tid) (items : Items) (o : Oid) → IsShelf rights s shelf
        → Contains shelf.prepared (t, items) → IsFalse (is_among o (changed_by items))
        → row_of name_of (keeps (Applied t) shelf).rows o ≡ row_of name_of shelf.rows o }
    ensures gone { (t : Tid) (shelf : Shelf) → IsFalse (is_prepared t (keeps (Applied t) shelf)) }
    ensures others { (t u : Tid) (shelf : Shelf) → IsFalse (is_tid u t)
        → prepared_as u (keeps (Applied t) shelf).prepared ≡ prepared_as u shelf.prepared }
    ensures senders { (t : Tid) (shelf : Shelf) → (keeps (Applied t) shelf).senders ≡ shelf.senders }
{}
