//! Laws of marks, over all events. The functions do nothing: their contracts are the laws.
ghost use Rattle.std.specs.Prelude.{◌≡◌, ℕ, List, [], map};
ghost use Rattle.std.specs.List.{filter};
ghost use Rattle.fab_tree.specs.declared.resolved.Resolved.{Resolved};
ghost use Rattle.fab_marks.specs.declared.moves.Move.{Move};
ghost use Rattle.fab_marks.specs.Labels.{title_of};
ghost use Rattle.fab_marks.specs.Marks.{marks};
ghost use Rattle.fab_marks.specs.Titled.{is_event, row_of, rows_from, title_in};

/// Each event of a window has exactly one mark, in order: its title is the event's line, and its row is
/// the next one.
pub fn each_event_has_its_mark()
    ensures events { (r : Resolved) (set : List (List ℕ)) (past drawn : List Move) → filter is_event (marks r set past [] 1 drawn) ≡ marks r set past [] 1 drawn }
    ensures titles { (r : Resolved) (set : List (List ℕ)) (past drawn : List Move) → map title_in (marks r set past [] 1 drawn) ≡ map (title_of r) drawn }
    ensures rows { (r : Resolved) (set : List (List ℕ)) (past drawn : List Move) → map row_of (marks r set past [] 1 drawn) ≡ rows_from 1 drawn }
{}
