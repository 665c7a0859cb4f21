//! Laws of bundles that a text stands for, of those without faults, and of numbers in all. Each function does
//! nothing: its contract is the law.
ghost use Rattle.std.specs.Prelude.{◌≡◌, ℕ, ◌<◌, List, [], count_by, is_some};
ghost use Rattle.std.specs.List.{AllByRecursion};
ghost use Rattle.fab_base.specs.declared.token.Token.{Token};
ghost use Rattle.fab_base.specs.Tokens.{Lexes};
ghost use Rattle.fab_tree.specs.declared.start.Start.{Start};
ghost use Rattle.fab_tree.specs.Syntax.{IsText};
ghost use Rattle.fab_language.specs.Faults.{faults};
ghost use Rattle.fab_language.specs.Numbers.{resolved};
ghost use Rattle.fab_reports.specs.Showable.{HasWords, IsNode};
ghost use Rattle.fab_named.specs.Events.{IsEventOf};

/// Where a bundle is what a text stands for, the names of its nodes, classes and roots are words: a letter or `_`,
/// and then letters, digits and `_`, at most 64 bytes. No root is called `null`, since that is a keyword.
pub fn names_are_words()
    ensures { (text : List ℕ) (ts : List Token) (s : Start) → Lexes 0 text ts → IsText ts s → HasWords (resolved s) }
{}

/// What is posted in such a bundle is bytes.
pub fn posts_are_bytes()
    ensures { (text : List ℕ) (ts : List Token) (s : Start) → Lexes 0 text ts → IsText ts s
        → AllByRecursion (λ p. AllByRecursion (λ b. b < 256) p.bytes) (resolved s).posts }
{}

/// In a bundle without faults the workers and stores of a post, of a crash and of an event of the schedule are
/// declared: each number there is one's.
pub fn events_and_posts_have_nodes()
    ensures posts { (s : Start) → faults s ≡ [] → AllByRecursion (λ p. IsNode (resolved s) p.receiver × IsNode (resolved s) p.sender) (resolved s).posts }
    ensures crashes { (s : Start) → faults s ≡ [] → AllByRecursion (λ c. IsNode (resolved s) c.node) (resolved s).crashes }
    ensures events { (s : Start) → faults s ≡ [] → AllByRecursion (IsEventOf (resolved s)) (resolved s).schedule }
{}

/// Each number below the count of workers and stores is one's, and no other is.
pub fn nodes_have_numbers()
    ensures below { (s : Start) (n : ℕ) → n < count_by (λ principal. is_some principal.node) (resolved s).nodes → IsNode (resolved s) n }
    ensures only { (s : Start) (n : ℕ) → IsNode (resolved s) n → n < count_by (λ principal. is_some principal.node) (resolved s).nodes }
{}
