//! The first fault so far.
ghost use Rattle.std.specs.Prelude.{◌≡◌, [], ◌∷◌, if◌then◌else◌};
ghost use Rattle.fab_language.specs.Faults.{rank as rank_of};
ghost use Rattle.fab_rules.specs.First.{first_from, is_sooner};

use fab_language::{Fault, NameRule};

/// The place of a rule among those that a refusal names at one place.
fn rank(rule: NameRule) -> u8
    ensures { result ≡ rank_of rule }
{
    match rule {
        NameRule::Unknown => 0,
        NameRule::Doubled => 1,
        NameRule::Node => 2,
        NameRule::Arity => 3,
        NameRule::Typing => 4,
    }
}

/// Whether a fault comes before another: by its place, and at one place by its rule.
fn is_sooner(fault: Fault, other: Fault) -> bool
    ensures { result ≡ is_sooner fault other }
{
    fault.at < other.at || (fault.at == other.at && rank(fault.rule) < rank(other.rule))
}

/// The first of the faults so far and this one.
pub fn noted(first: Option<Fault>, rule: NameRule, at: u32) -> Option<Fault>
    ensures { result ≡ first_from first (record { rule = rule; at = at } ∷ []) }
{
    let fault = Fault { rule, at };
    match first {
        None => Some(fault),
        Some(before) => {
            if is_sooner(fault, before) {
                Some(fault)
            } else {
                Some(before)
            }
        }
    }
}

/// The first of the faults so far and this one, which is none where what it is about is right.
pub fn noted_unless(right: bool, first: Option<Fault>, rule: NameRule, at: u32) -> Option<Fault>
    ensures { result ≡ first_from first (if right then [] else record { rule = rule; at = at } ∷ []) }
{
    if right { first } else { noted(first, rule, at) }
}
