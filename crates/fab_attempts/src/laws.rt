//! Laws of attempts.

ghost use Rattle.std.specs.Prelude.{◌≡◌, ◌<◌, ◌^◌, ℕ, IsTrue, IsFalse, List, [], None, Some, slice_get};
ghost use Rattle.std.specs.List.{AllByRecursion};
ghost use Rattle.fab_base.specs.declared.object.Object.{Object};
ghost use Rattle.fab_base.specs.declared.object.Oid.{Oid};
ghost use Rattle.fab_base.specs.declared.object.Tid.{Tid};
ghost use Rattle.fab_base.specs.FlatMap.{is_among, map_of};
ghost use Rattle.fab_tree.specs.declared.resolved.Request.{Request};
ghost use Rattle.fab_tree.specs.declared.resolved.Resolved.{Resolved};
ghost use Rattle.fab_tree.specs.declared.start.Start.{Start};
ghost use Rattle.fab_tree.specs.Limits.{first_passed};
ghost use Rattle.fab_language.specs.declared.ending.Ending.TheVariants.{Missing};
ghost use Rattle.fab_language.specs.Faults.{faults};
ghost use Rattle.fab_language.specs.Meaning.{Meant, meaning};
ghost use Rattle.fab_language.specs.Numbers.{resolved};
ghost use Rattle.fab_nested.specs.Nested.{creates_in, versions_of, writes_in};
ghost use Rattle.fab_laws.specs.Shapes.{IsShaped};
ghost use Rattle.fab_places.specs.Places.{AreRights};
ghost use Rattle.fab_rights.specs.Computed.{suits};
ghost use Rattle.fab_rights.specs.declared.rights.Rights.{Rights};
ghost use Rattle.fab_protocol.specs.declared.parts.Parts.{Parts};
ghost use Rattle.fab_protocol.specs.Caches.{cached};
ghost use Rattle.fab_protocol.specs.Parts.{puts_of};
ghost use Rattle.fab_protocol.specs.Versions.{Rows, names_of, objects_of};
ghost use Rattle.fab_world.specs.Attempts.{parts_of};
ghost use Rattle.fab_attempts.specs.Known.{AreKnown, ArePartsOver};
ghost use Rattle.fab_attempts.specs.Sessions.{IsProgramOf, requests_of};

/// What a bundle within the limits that keeps the rules of names and types gives is a program of each of
/// its workers, over the rights that are the bundle's.
pub fn bundles_give_programs()
    ensures { (s : Start) (n : ℕ) (rights : Rights) → first_passed s ≡ None → faults s ≡ [] → AreRights (resolved s) rights
        → IsProgramOf (resolved s) n rights }
{}

/// An object that suits its name by a worker's rights has the shape of its class in the program.
pub fn answers_have_shapes()
    ensures { (program : Resolved) (n : ℕ) (rights : Rights) (o : Oid) (x : Object) → IsProgramOf program n rights
        → IsTrue (suits rights o x) → IsShaped program.classes o x }
{}

/// What a request of the session means over known answers has parts that messages can spell, that
/// touch nothing but what was answered, and that write known objects.
pub fn parts_are_over_answers()
    ensures { (program : Resolved) (n : ℕ) (rights : Rights) (t : Tid) (answers : Rows) (i : ℕ) (request : Request) (fuel : ℕ)
        → IsProgramOf program n rights → AreKnown program t answers → slice_get (requests_of program n) i ≡ Some request
        → ArePartsOver program t answers (parts_of answers (meaning program (map_of (objects_of answers)) request t fuel)) }
{}

/// An object that is missing isn't among the answers.
pub fn missing_is_unanswered()
    ensures { (program : Resolved) (t : Tid) (answers : Rows) (request : Request) (fuel site : ℕ) (o : Oid)
        → (meaning program (map_of (objects_of answers)) request t fuel).ending ≡ Missing site o → IsFalse (is_among o (names_of answers)) }
{}

/// The writes and creates of an evaluation are those of the parts.
pub fn outcomes_are_parts()
    ensures writes { (answers : Rows) (meant : Meant) → writes_in (versions_of answers) meant.written meant.map ≡ (parts_of answers meant).writes }
    ensures creates { (answers : Rows) (meant : Meant) → creates_in meant.made meant.map ≡ (parts_of answers meant).creates }
{}

/// What a cache takes of known parts over known answers is known, and so are the caches behind it.
pub fn puts_stay_known()
    ensures puts { (program : Resolved) (t : Tid) (answers : Rows) (parts : Parts) → AreKnown program t answers
        → ArePartsOver program t answers parts → AreKnown program t (puts_of answers parts) }
    ensures caches { (program : Resolved) (t : Tid) (k : ℕ) (puts : Rows) (s : ℕ) (caches : List Rows) → AreKnown program t puts
        → AllByRecursion (AreKnown program t) caches → AllByRecursion (AreKnown program t) (cached k puts s caches) }
{}
