//! Laws of the erased meaning over fewer objects.
ghost use Rattle.fab_fewer.specs.Asking.{AsksAreInView};
ghost use Rattle.fab_fewer.specs.Blanks.{BlankedIsAlike, BlanksChangeNothing};
ghost use Rattle.fab_fewer.specs.Fewer.{DoesOverFewer, DoesTheSame, DoesWithout, KnowsAllTouched, MeaningOverFewer};
ghost use Rattle.fab_fewer.specs.InPart.{ViewsReplay};

/// Whatever somebody sees, a request touches only objects that are known, and what it lacks isn't
/// known.
pub fn known_objects_are_touched()
    ensures { KnowsAllTouched }
{}

/// Over a part of the objects a request does the same if the part has all that it touches over the
/// whole. Else it ends at the first object that it touches there and that is missing here. It doesn't
/// matter which objects the attempt makes.
pub fn less_is_known()
    ensures erased { DoesOverFewer }
    ensures without { DoesWithout }
    ensures meaning { MeaningOverFewer }
{}

/// Over two maps that agree on what is touched and lacked a request does the same.
pub fn maps_agree()
    ensures { DoesTheSame }
{}

/// Who sees labels that are closed under what a program owes them, and learns one after the other the
/// objects that are touched in view, finds by the erased meaning the next one that is touched, what is
/// missing in view, and how it ends.
pub fn views_replay()
    ensures { ViewsReplay }
{}

/// An argument that isn't seen may be any other value, such as a blank.
pub fn blanks_change_nothing()
    ensures alike { BlanksChangeNothing }
    ensures blanked { BlankedIsAlike }
{}

/// An object of a class whose access label is seen is touched, and missed, only at sites in view.
pub fn asks_are_in_view()
    ensures { AsksAreInView }
{}
