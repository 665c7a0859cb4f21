//! Laws of the meaning of requests.
ghost use Rattle.std.specs.Prelude.{◌≡◌, ℕ, ◌≤◌, Bool, List, None, true};
ghost use Rattle.std.specs.List.{AllByRecursion};
ghost use Rattle.fab_base.specs.FlatMap.{FlatMap, ascends, get};
ghost use Rattle.fab_base.specs.declared.object.Oid.{Oid};
ghost use Rattle.fab_base.specs.declared.object.Tid.{Tid};
ghost use Rattle.fab_base.specs.declared.object.Value.{Value};
ghost use Rattle.fab_tree.specs.declared.resolved.Expression.{Expression};
ghost use Rattle.fab_tree.specs.declared.resolved.Request.{Request};
ghost use Rattle.fab_tree.specs.declared.resolved.Resolved.{Resolved};
ghost use Rattle.fab_tree.specs.declared.resolved.Statement.{Statement};
ghost use Rattle.fab_language.specs.Evaluation.{in_turn};
ghost use Rattle.fab_language.specs.Heaps.{is_among};
ghost use Rattle.fab_language.specs.Meaning.{State, block, called, meaning, value};
ghost use Rattle.fab_language.specs.declared.ending.Ending.TheVariants.{Missing};
ghost use Rattle.fab_laws.specs.Changes.{IsOf, IsUnmade, MakesNew, OnlyChanges, StaysWithin, WritesKnown};
ghost use Rattle.fab_laws.specs.Closed.{AreThere, IsClosed, IsClosedBehind, IsFound};
ghost use Rattle.fab_laws.specs.Locality.{AgreesOn, GoesOn, IsPart, IsSameOver, LacksToo, with_changes};
ghost use Rattle.fab_laws.specs.Kinds.{claims_of};
ghost use Rattle.fab_laws.specs.Origins.{AllPass, HasOnlyPassing, HasOrigins, MakesPassing, OnlyPassing};
ghost use Rattle.fab_laws.specs.Runs.{state_behind};
ghost use Rattle.fab_laws.specs.Shapes.{AreShaped, IsFitting, KeepsShape, is_fitting};

/// A request does over many objects what it does over few, if they agree on what it touched and
/// lacked and, where it was stopped for one read too many, on all of the few: so where the few are a
/// part of the many, unless one was missing that is now there. What is missing isn't in the map.
pub fn same_until_missing()
    ensures agreeing { (program : Resolved) (request : Request) (tid : Tid) (fuel : ℕ) (few many : FlatMap) → let over = λ (m : FlatMap). meaning program m request tid fuel in AgreesOn few many (over few) → IsSameOver many (over few) (over many) }
    ensures part { (program : Resolved) (request : Request) (tid : Tid) (fuel : ℕ) (few many : FlatMap) → let over = λ (m : FlatMap). meaning program m request tid fuel in IsPart few many → LacksToo many (over few) → IsSameOver many (over few) (over many) }
    ensures missing { (program : Resolved) (known : FlatMap) (request : Request) (tid : Tid) (fuel site : ℕ) (o : Oid) → (meaning program known request tid fuel).ending ≡ Missing site o → get known o ≡ None }
{}

/// If they agree so, and the names of both maps ascend, the map behind it over the many is the many
/// with what it wrote and made over the few put into them.
pub fn changes_carry_over()
    ensures { (program : Resolved) (request : Request) (tid : Tid) (fuel : ℕ) (few many : FlatMap) → let over = λ (m : FlatMap). meaning program m request tid fuel in AgreesOn few many (over few) → ascends few ≡ true → ascends many ≡ true → (over many).map ≡ with_changes (over few) many }
{}

/// Where the few are a part of the many, a request notes over the many what it notes over the few,
/// touches and downgraded values, and goes on from there if an object was missing.
pub fn touches_go_on()
    ensures { (program : Resolved) (request : Request) (tid : Tid) (fuel : ℕ) (few many : FlatMap) → let over = λ (m : FlatMap). meaning program m request tid fuel in IsPart few many → GoesOn (over few) (over many) }
{}

/// Over a map in which each reference leads to an object, no object is missing, and the map behind is
/// again such a map. So it is for requests one after the other.
pub fn nothing_missing()
    ensures once { (program : Resolved) (known : FlatMap) (request : Request) (tid : Tid) (fuel : ℕ) → IsClosed known → AreThere known request.args → IsClosedBehind known (meaning program known request tid fuel) }
    ensures in_turn { (program : Resolved) (known : FlatMap) (requests : List Request) → IsClosed known → AllByRecursion (λ r. AreThere known r.args) requests → AllByRecursion IsFound (in_turn program known requests).endings × IsClosed (in_turn program known requests).map }
{}

/// No expression, block or call gains fuel, however it ends.
pub fn fuel_never_rises()
    ensures values { (e : Expression) (t : State) → (state_behind (value e t)).fuel ≤ t.fuel }
    ensures blocks { (program : Resolved) (tid : Tid) (depth : ℕ) (t : State) (xs : List Statement) → (state_behind (block tid (called program tid depth) xs t)).fuel ≤ t.fuel }
    ensures calls { (program : Resolved) (tid : Tid) (depth : ℕ) (t : State) (m : ℕ) (args : List Value) → (state_behind (called program tid depth m args t)).fuel ≤ t.fuel }
{}

/// Under every other name than those that a request wrote and made the map behind it is as before.
pub fn only_changed_names_change()
    ensures { (program : Resolved) (known : FlatMap) (request : Request) (tid : Tid) (fuel : ℕ) → OnlyChanges known (meaning program known request tid fuel) }
{}

/// What a request wrote was there before, and it was touched.
pub fn written_names_are_known()
    ensures { (program : Resolved) (known : FlatMap) (request : Request) (tid : Tid) (fuel : ℕ) → WritesKnown known (meaning program known request tid fuel) }
{}

/// The names that a request makes are those of its attempt, numbered for each site from 0. So they
/// are new in a map of which nothing was made in it.
pub fn made_names_are_new()
    ensures made { (program : Resolved) (known : FlatMap) (request : Request) (tid : Tid) (fuel : ℕ) → MakesNew tid (meaning program known request tid fuel) }
    ensures of_attempt { (program : Resolved) (known : FlatMap) (request : Request) (tid : Tid) (fuel : ℕ) (o : Oid) → is_among o (meaning program known request tid fuel).made ≡ true → IsOf tid o }
    ensures new { (program : Resolved) (known : FlatMap) (request : Request) (tid : Tid) (fuel : ℕ) (o : Oid) → IsUnmade tid known → is_among o (meaning program known request tid fuel).made ≡ true → get known o ≡ None }
{}

/// What a request touched was there before, and no limit is passed.
pub fn touches_stay_within_limits()
    ensures { (program : Resolved) (known : FlatMap) (request : Request) (tid : Tid) (fuel : ℕ) → StaysWithin known (meaning program known request tid fuel) }
{}

/// Where each value fits where the program puts it, objects keep the shape of their classes: a
/// request over such objects leaves such objects, and so do requests one after the other.
pub fn objects_keep_their_shape()
    ensures once { (program : Resolved) (known : FlatMap) (request : Request) (tid : Tid) (fuel : ℕ) → is_fitting program ≡ true → AreShaped program.classes known → IsFitting program request → KeepsShape program request (meaning program known request tid fuel) }
    ensures in_turn { (program : Resolved) (known : FlatMap) (requests : List Request) → is_fitting program ≡ true → AreShaped program.classes known → AllByRecursion (IsFitting program) requests → AreShaped program.classes (in_turn program known requests).map }
{}

/// If each name passes a test that stands in the arguments, in a known object or may be made where
/// the program makes objects, then whatever a request touches, writes, makes, misses and leaves
/// passes it.
pub fn names_pass_as_before()
    ensures { (p : Oid → Bool) (program : Resolved) (known : FlatMap) (request : Request) (tid : Tid) (fuel : ℕ) → AllByRecursion (MakesPassing p tid) (claims_of program) → AllPass p request.args → HasOnlyPassing p known → OnlyPassing p (meaning program known request tid fuel) }
{}

/// Each name that a request touches stands in the arguments, or in a field that a known object had
/// which was touched before.
pub fn touches_come_from_somewhere()
    ensures { (program : Resolved) (known : FlatMap) (request : Request) (tid : Tid) (fuel : ℕ) → HasOrigins known request.args (meaning program known request tid fuel) }
{}
