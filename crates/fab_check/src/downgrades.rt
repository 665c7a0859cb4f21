//! What downgrades owe.
ghost use Rattle.std.specs.Prelude.{◌≡◌, ◌∷◌, []};
ghost use Rattle.fab_labelling.specs.Obligations.{declassifies, endorses};
ghost use Rattle.fab_authority.specs.Decided.{decided};
ghost use Rattle.fab_check.specs.Noted.{all_noted};
ghost use Rattle.fab_check.specs.Shown.{downgrading, numbers_of};

use crate::scope::Scope;
use crate::verdicts::Verdicts;
use fab_labelling::{LabelRule, Side};
use fab_labels::{declass_ok, endorse_ok};
use fab_tree::Downgrade;

/// Whether a method may declassify from the one label to the other.
fn may_declassify(verdicts: &Verdicts<'_>, scope: &Scope<'_>, from: u16, to: u16) -> bool
    ensures { result ≡ decided verdicts.now.start (declassifies from to (numbers_of scope.now.authority.now)) }
{
    declass_ok(
        verdicts.acts(),
        verdicts.label(from),
        verdicts.label(to),
        scope.set,
    )
}

/// Whether a method may endorse from the one label to the other.
fn may_endorse(verdicts: &Verdicts<'_>, scope: &Scope<'_>, from: u16, to: u16) -> bool
    ensures { result ≡ decided verdicts.now.start (endorses from to (numbers_of scope.now.authority.now)) }
{
    endorse_ok(
        verdicts.acts(),
        verdicts.label(from),
        verdicts.label(to),
        scope.set,
    )
}

/// A value is downgraded from the one label to the other.
#[tactic(auto, unfolding(crate::specs::Noted::all_noted))]
pub(crate) fn note_downgrade(
    verdicts: &mut Verdicts<'_>,
    scope: &Scope<'_>,
    downgrade: Downgrade,
    at: u32,
    from: u16,
    to: u16,
)
    ensures { verdicts.new ≡ all_noted verdicts.old (downgrading scope.now downgrade at from to ∷ []) }
{
    match downgrade {
        Downgrade::Declassify => {
            if !may_declassify(verdicts, scope, from, to) {
                verdicts.refuse(
                    LabelRule::Declassify,
                    at,
                    Side::Label(from),
                    Side::Label(to),
                );
            }
        }
        Downgrade::Endorse => {
            if !may_endorse(verdicts, scope, from, to) {
                verdicts.refuse(LabelRule::Endorse, at, Side::Label(from), Side::Label(to));
            }
        }
    }
}
