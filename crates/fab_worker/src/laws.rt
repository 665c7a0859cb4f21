//! Laws of recovery and of attempts. The functions do nothing: their contracts are the laws.

ghost use Rattle.std.specs.Prelude.{◌≡◌, ◌↔◌, ◌+◌, ◌++◌, ℕ, List, Option};
ghost use Rattle.fab_base.specs.declared.entry.Entry.{Entry};
ghost use Rattle.fab_base.specs.declared.message.Message.{Message};
ghost use Rattle.fab_language.specs.Meaning.{Meant};
ghost use Rattle.fab_rights.specs.declared.rights.Rights.{Rights};
ghost use Rattle.fab_protocol.specs.declared.parts.Parts.{Parts};
ghost use Rattle.fab_world.specs.Workers.{Attempt, Kept, gives_up, kept_of, resumes};
ghost use Rattle.fab_worker.specs.Models.{WorkerModel};
ghost use Rattle.fab_worker.specs.Plans.{AreKept, hears};
ghost use Rattle.fab_worker.specs.Records.{boots_in, kept_behind_all};

/// Records may be kept, one behind the other, exactly where some first of them may and the others behind
/// these: so any front of what may be kept may be kept. A worker's boot is one more than its records have
/// of boots.
pub fn kept_in_a_row()
    ensures kept { (requests : ℕ) (first second : List Entry) (kept : Kept)
        → AreKept requests (first ++ second) kept ↔ (AreKept requests first kept × AreKept requests second (kept_behind_all first kept)) }
    ensures boot { (entries : List Entry) → (kept_of entries).boot ≡ boots_in entries + 1 }
{}

/// Whatever a worker's job comes to, whatever reaches it of whomever, and whichever store is silent, the
/// number of its attempt stays: only a beginning raises it.
pub fn attempts_keep_their_number()
    ensures resumed { (rights : Rights) (k n : ℕ) (kept : Kept) (a : Attempt) (meant : Meant) → (resumes rights k n kept a meant).attempt.number ≡ a.number }
    ensures heard { (x : WorkerModel) (s : ℕ) (message : Option Message) → (hears x s message).attempt.number ≡ x.attempt.number }
    ensures silent { (rights : Rights) (k n : ℕ) (kept : Kept) (s : ℕ) (a : Attempt) (parts : Parts) → (gives_up rights k n kept s a parts).attempt.number ≡ a.number }
{}
