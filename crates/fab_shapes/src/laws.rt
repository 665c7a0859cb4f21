//! Laws of bundles that break no rule of names and types.
ghost use Rattle.std.specs.Prelude.{◌≡◌, [], true};
ghost use Rattle.std.specs.List.{AllByRecursion};
ghost use Rattle.fab_tree.specs.declared.start.Start.{Start};
ghost use Rattle.fab_language.specs.Evaluation.{course_of, map_at_start, requests_of};
ghost use Rattle.fab_language.specs.Faults.{faults};
ghost use Rattle.fab_language.specs.Numbers.{resolved};
ghost use Rattle.fab_laws.specs.Closed.{AreThere, IsClosed, IsFound};
ghost use Rattle.fab_laws.specs.Shapes.{AreShaped, IsFitting, is_fitting};

/// Where a bundle breaks no rule of names and types, each value fits where the program with numbers for
/// names puts it.
pub fn well_typed()
    ensures { (s : Start) → faults s ≡ [] → is_fitting (resolved s) ≡ true }
{}

/// Then the objects of roots have the shape of their classes.
pub fn objects_shaped()
    ensures { (s : Start) → faults s ≡ [] → AreShaped (resolved s).classes (map_at_start (resolved s)) }
{}

/// Then each request gives its method as many values as it has parameters, each of its parameter's kind.
pub fn requests_fit()
    ensures { (s : Start) → faults s ≡ [] → AllByRecursion (IsFitting (resolved s)) (requests_of (resolved s)) }
{}

/// Each reference in the object of a root leads to the object of a root, whatever the bundle is.
pub fn objects_closed()
    ensures { (s : Start) → IsClosed (map_at_start (resolved s)) }
{}

/// Each reference that a request gives leads to the object of a root, whatever the bundle is.
pub fn requests_there()
    ensures { (s : Start) → AllByRecursion (λ r. AreThere (map_at_start (resolved s)) r.args) (requests_of (resolved s)) }
{}

/// So no request of an evaluation misses an object, and each reference in an object behind the last
/// leads to an object, whatever the bundle is. Where it breaks no rule of names and types, these objects
/// have the shape of their classes.
pub fn evaluations_stay_whole()
    ensures found { (s : Start) → AllByRecursion IsFound (course_of (resolved s)).endings }
    ensures closed { (s : Start) → IsClosed (course_of (resolved s)).map }
    ensures shaped { (s : Start) → faults s ≡ [] → AreShaped (resolved s).classes (course_of (resolved s)).map }
{}
