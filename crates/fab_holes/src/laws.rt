//! Laws of inference, over the definitions alone.
ghost use Rattle.std.specs.Prelude.{◌≡◌, ◌↔◌, ℕ, List, All, IsBitSet, length};
ghost use Rattle.std.specs.List.{AllZip};
ghost use Rattle.fab_tree.specs.declared.start.Start.{Start as Bundle};
ghost use Rattle.fab_language.specs.Numbers.{resolved};
ghost use Rattle.fab_labelling.specs.declared.rule.Refusal.{Refusal as Reason};
ghost use Rattle.fab_labelling.specs.Claims.{Holds};
ghost use Rattle.fab_labelling.specs.Obligations.{owed};
ghost use Rattle.fab_labelling.specs.Refusals.{IsFirstRefusal};
ghost use Rattle.fab_holes.specs.Chosen.{places_of, with_chosen};
ghost use Rattle.fab_holes.specs.Flowing.{all_flows};
ghost use Rattle.fab_holes.specs.Holes.{IsNamed, filled, holes};
ghost use Rattle.fab_holes.specs.Open.{opened, renamed, renamed_claim};
ghost use Rattle.fab_holes.specs.Least.{count, LiesBelow, Goes, AreLeast, chosen_label, IsChoice, Solves, IsSolved, HasNoLeast, HasNoSolution};
ghost use Rattle.fab_holes.specs.Passes.{HasNoMore, mask_at, put_all};

/// Numbering the filled bundle is numbering the one with holes and putting for each hole's number that
/// of the label that is chosen for it.
pub fn filling_is_renaming()
    ensures { (start : Bundle) (choice : List ℕ) → IsNamed start → IsChoice start choice
        → resolved (filled start choice) ≡ renamed (chosen_label (count (resolved start)) choice) (opened (resolved start)) }
{}

/// A choice solves exactly where all holds that the bundle owes with its holes standing as labels, once
/// the chosen labels stand for them.
pub fn solutions_meet_what_is_owed()
    ensures { (start : Bundle) (choice : List ℕ) → IsNamed start → IsChoice start choice
        → Solves start choice ↔ All (λ x. Holds (resolved start) (renamed_claim (chosen_label (count (resolved start)) choice) x.claim)) (owed (opened (resolved start))) }
{}

/// Where each hole has a least label and some choice solves, the least solve, and each of them flows to
/// what the other has there. So their choice is the answer where it solves, and where it is refused there
/// is no solution at all.
pub fn least_labels_solve()
    ensures solve { (start : Bundle) (choice other : List ℕ) → IsNamed start → IsChoice start choice → AreLeast (resolved start) 0 choice
        → IsChoice start other → Solves start other → Solves start choice }
    ensures below { (start : Bundle) (choice other : List ℕ) → IsNamed start → IsChoice start choice → AreLeast (resolved start) 0 choice
        → IsChoice start other → Solves start other → AllZip (Goes (resolved start)) choice other }
    ensures solved { (start : Bundle) (choice : List ℕ) → IsNamed start → IsChoice start choice → AreLeast (resolved start) 0 choice
        → Solves start choice → IsSolved start choice }
    ensures refused { (start : Bundle) (choice : List ℕ) (reason : Reason) → IsNamed start → IsChoice start choice → AreLeast (resolved start) 0 choice
        → IsFirstRefusal (resolved (filled start choice)) reason → HasNoSolution start reason }
{}

/// No bundle has two answers, of one kind or of two. And where no hole is the first without a least label,
/// it can't be that there is no choice of least labels; so one of the three answers comes.
pub fn one_answer()
    ensures choice { (start : Bundle) (choice other : List ℕ) → IsSolved start choice → IsSolved start other → choice ≡ other }
    ensures place { (start : Bundle) (at other : ℕ) → HasNoLeast start at → HasNoLeast start other → at ≡ other }
    ensures reason { (start : Bundle) (reason other : Reason) → HasNoSolution start reason → HasNoSolution start other → reason ≡ other }
    ensures solved_or_least { (start : Bundle) (choice : List ℕ) (at : ℕ) → IsSolved start choice → ¬ HasNoLeast start at }
    ensures solved_or_refused { (start : Bundle) (choice : List ℕ) (reason : Reason) → IsSolved start choice → ¬ HasNoSolution start reason }
    ensures least_or_refused { (start : Bundle) (at : ℕ) (reason : Reason) → HasNoLeast start at → ¬ HasNoSolution start reason }
    ensures some { (start : Bundle) → ((at : ℕ) → ¬ HasNoLeast start at) → ¬ ((choice : List ℕ) → IsChoice start choice → ¬ AreLeast (resolved start) 0 choice) }
{}

/// Putting the labels of a choice for the holes of the numbered bundle in turn numbers the filled one, and
/// the places of holes are those of the text.
pub fn holes_are_filled_in_turn()
    ensures filled { (start : Bundle) (choice : List ℕ) → IsNamed start → IsChoice start choice → with_chosen (resolved start) choice ≡ resolved (filled start choice) }
    ensures places { (start : Bundle) → IsNamed start → places_of (resolved start) ≡ holes start }
{}

/// Going through what flows to the locals of methods adds to no hole's mask more than lies below it; and
/// masks, one for each hole, that have no more and that it leaves as they are have all that lies below.
pub fn lasting_masks_have_what_lies_below()
    ensures no_more { (start : Bundle) (masks : List ℕ) → IsNamed start → HasNoMore (resolved start) masks
        → HasNoMore (resolved start) (put_all (count (resolved start)) masks (all_flows (opened (resolved start)))) }
    ensures exact { (start : Bundle) (masks : List ℕ) → IsNamed start → length masks ≡ length (holes start) → HasNoMore (resolved start) masks
        → put_all (count (resolved start)) masks (all_flows (opened (resolved start))) ≡ masks → (h l : ℕ) → IsBitSet (mask_at masks h) l ↔ LiesBelow (resolved start) l h }
{}
