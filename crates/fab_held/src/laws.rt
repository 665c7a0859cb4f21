//! Laws of bundles that are well labelled.
ghost use Rattle.std.specs.Prelude.{ℕ, List};
ghost use Rattle.std.specs.List.{AllByRecursion};
ghost use Rattle.fab_base.specs.FlatMap.{FlatMap};
ghost use Rattle.fab_base.specs.declared.object.Tid.{Tid};
ghost use Rattle.fab_tree.specs.declared.resolved.Request.{Request};
ghost use Rattle.fab_tree.specs.declared.resolved.Resolved.{Resolved};
ghost use Rattle.fab_tree.specs.declared.start.Start.{Start};
ghost use Rattle.fab_language.specs.Evaluation.{course_of, in_turn};
ghost use Rattle.fab_language.specs.Meaning.{meaning};
ghost use Rattle.fab_language.specs.Numbers.{resolved};
ghost use Rattle.fab_labelling.specs.Claims.{IsWellLabelled};
ghost use Rattle.fab_laws.specs.Kinds.{claims_of};
ghost use Rattle.fab_held.specs.Held.{AllHeld, HasOnlyHeld, MakesHeld, OnlyHeld};

/// Where a bundle is well labelled, each store at which its program makes objects of a class may hold
/// that class.
pub fn made_where_held()
    ensures { (r : Resolved) → IsWellLabelled r → AllByRecursion (MakesHeld r) (claims_of r) }
{}

/// If then the store of each name may hold the name's class that stands in the arguments, in a known
/// object or over one, so may that of each name that a request touches, writes, makes, misses, leaves
/// and returns. So it is for requests one after the other.
pub fn objects_are_held()
    ensures once { (r : Resolved) (known : FlatMap) (request : Request) (tid : Tid) (fuel : ℕ) → IsWellLabelled r → AllHeld r request.args → HasOnlyHeld r known → OnlyHeld r (meaning r known request tid fuel) }
    ensures in_turn { (r : Resolved) (known : FlatMap) (requests : List Request) → IsWellLabelled r → AllByRecursion (λ q. AllHeld r q.args) requests → HasOnlyHeld r known → HasOnlyHeld r (in_turn r known requests).map }
{}

/// So each object that an evaluation leaves is at a store that may hold its class, and so is each to
/// which one refers, whatever the rules of names and types say of the bundle.
pub fn evaluations_hold_objects()
    ensures { (s : Start) → IsWellLabelled (resolved s) → HasOnlyHeld (resolved s) (course_of (resolved s)).map }
{}
