//! Laws of pictures, over all reports. The functions do nothing: their contracts are the laws.
ghost use Rattle.std.specs.Prelude.{◌≡◌, ℕ, List, [], map};
ghost use Rattle.std.specs.List.{filter};
ghost use Rattle.fab_tree.specs.declared.resolved.Resolved.{Resolved};
ghost use Rattle.fab_reports.specs.declared.line.Line.{Line};
ghost use Rattle.fab_marks.specs.Labels.{title_of};
ghost use Rattle.fab_marks.specs.Marks.{marks};
ghost use Rattle.fab_marks.specs.Titled.{is_event, row_of, rows_from, title_in};
ghost use Rattle.fab_picture.specs.Moves.{before, moves, within};
ghost use Rattle.fab_picture.specs.Picture.{picture};

/// The marks and arrows of a picture are those of the events in its window, one for each, in order: their
/// titles are the events' lines, and their rows are 1, 2, and so on.
pub fn each_event_has_its_mark()
    ensures marks { (r : Resolved) (set : List (List ℕ)) (from to : ℕ) (lines : List Line)
        → filter is_event (picture r set from to lines) ≡ marks r set (before from (moves r lines)) [] 1 (within from to (moves r lines)) }
    ensures titles { (r : Resolved) (set : List (List ℕ)) (from to : ℕ) (lines : List Line)
        → map title_in (filter is_event (picture r set from to lines)) ≡ map (title_of r) (within from to (moves r lines)) }
    ensures rows { (r : Resolved) (set : List (List ℕ)) (from to : ℕ) (lines : List Line)
        → map row_of (filter is_event (picture r set from to lines)) ≡ rows_from 1 (within from to (moves r lines)) }
{}
