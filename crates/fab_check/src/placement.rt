//! Which store may hold which class.
ghost use Rattle.std.specs.Prelude.{◌≡◌, ◌∷◌, []};
ghost use Rattle.fab_labelling.specs.Obligations.{holds, owe};
ghost use Rattle.fab_labelling.specs.Placement.{role_of};
ghost use Rattle.fab_labelling.specs.Readers.{label_at};
ghost use Rattle.fab_labelling.specs.Refusals.{class_label};
ghost use Rattle.fab_labelling.specs.declared.rule.LabelRule.TheVariants.{Placement as OfPlacement};
ghost use Rattle.fab_authority.specs.Decided.{decided, holds_class, is_store_role, may_hold, reaches};
ghost use Rattle.fab_check.specs.Noted.{all_noted};

use crate::verdicts::Verdicts;
use fab_labelling::{LabelRule, Side};
use fab_principals::Acts;
use fab_tree::resolved::{Class, Resolved};

/// Whether the one acts for the other.
pub(crate) fn acts_for(acts: &Acts, p: u16, q: u16) -> bool
    ensures { result ≡ reaches acts.now.pairs p q }
{
    acts.acts(p, q)
}

/// Whether the principal may hold objects of the class, as a store.
fn may_hold(verdicts: &Verdicts<'_>, p: u16, class: &Class) -> bool
    ensures { result ≡ may_hold verdicts.now.start.pairs p (label_at verdicts.now.start class.now.label.number) (label_at verdicts.now.start class.now.access.number) }
{
    let label = verdicts.label(class.label.number);
    let access = verdicts.label(class.access.number);
    fab_places::may_hold(verdicts.acts(), p, label, access)
}

/// Whether the node of this number is a store.
fn is_store(start: &Resolved, number: u16) -> bool
    ensures { result ≡ is_store_role (role_of start.now number) }
{
    fab_places::is_store(start, number)
}

/// The label of the class of a number.
fn class_label(start: &Resolved, class: u16) -> u16
    ensures { result ≡ class_label start.now class }
{
    match start.classes.as_slice().get(usize::from(class)) {
        None => 0,
        Some(found) => found.label.number,
    }
}

/// Whether the principal, which is the store of this number, may hold the class, by what labels say.
#[tactic(auto, unfolding(fab_authority::specs::Decided::decided))]
fn ask_holds(verdicts: &Verdicts<'_>, store: u16, class: u16) -> bool
    ensures { result ≡ decided verdicts.now.start (holds store class) }
{
    let start = verdicts.start();
    match start.classes.as_slice().get(usize::from(class)) {
        None => false,
        Some(found) => is_store(start, store)
            && may_hold(verdicts, verdicts.principal(store), found),
    }
}

/// Whether the store may hold the class. It is asked once.
fn holds(verdicts: &mut Verdicts<'_>, store: u16, class: u16) -> bool
    ensures decided { result ≡ decided verdicts.old.start (holds store class) }
    ensures same { verdicts.new ≡ verdicts.old }
{
    match verdicts.known_to_hold(store, class) {
        Some(answer) => answer,
        None => {
            let answer = ask_holds(verdicts, store, class);
            verdicts.remember_holding(store, class, answer);
            answer
        }
    }
}

/// A store is to be one that may hold the class.
#[tactic(auto, unfolding(crate::specs::Noted::all_noted))]
pub(crate) fn note_placement(verdicts: &mut Verdicts<'_>, at: u32, store: u16, class: u16)
    ensures { verdicts.new ≡ all_noted verdicts.old (owe OfPlacement at (holds store class) ∷ []) }
{
    if !holds(verdicts, store, class) {
        let source = Side::Label(class_label(verdicts.start(), class));
        let target = Side::Principal(verdicts.principal(store));
        verdicts.refuse(LabelRule::Placement, at, source, target);
    }
}
