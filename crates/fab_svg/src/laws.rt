//! Laws of the text of a picture: the contracts of functions that do nothing.
ghost use Rattle.std.specs.Prelude.{◌≡◌, ℕ, List, [], true, false, reverse};
ghost use Rattle.std.specs.List.{filter, flat_map, list_all};
ghost use Rattle.fab_marks.specs.declared.shape.Shape.{Shape};
ghost use Rattle.fab_marks.specs.Titled.{is_event};
ghost use Rattle.fab_svg.specs.Escaped.{escaped, is_plain};
ghost use Rattle.fab_svg.specs.Svg.{IsLine, event_text, events_text, ground_text};

/// What stands for a text is printable ASCII that begins and ends no tag and no value of an attribute, whatever
/// the text's bytes are.
pub fn escaped_text_is_plain()
    ensures { (text : List ℕ) → list_all is_plain (escaped text) ≡ true }
{}

/// What is printed of the events of a picture is a line for each sign and arrow, the last first, and no other
/// shape has a part in it; and of these shapes nothing else is printed.
pub fn each_mark_is_a_line()
    ensures lines { (shapes : List Shape) → events_text shapes ≡ flat_map event_text (reverse (filter is_event shapes)) }
    ensures marks { (shape : Shape) → is_event shape ≡ true → IsLine (event_text shape) }
    ensures once { (shape : Shape) → is_event shape ≡ true → ground_text shape ≡ [] }
    ensures others { (shape : Shape) → is_event shape ≡ false → event_text shape ≡ [] }
{}
