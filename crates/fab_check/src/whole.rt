//! Whether a bundle is well labelled.
ghost use Rattle.std.specs.Prelude.{◌≡◌, ℕ, None as Nothing, Err as Refusing, IfOk, length};
ghost use Rattle.fab_language.specs.Flows.{delegations_of};
ghost use Rattle.fab_labelling.specs.Claims.{IsWellLabelled};
ghost use Rattle.fab_labelling.specs.Obligations.{owed};
ghost use Rattle.fab_labelling.specs.Refusals.{IsFirstRefusal};
ghost use Rattle.fab_labelling.specs.Sites.{pcs_of};
ghost use Rattle.fab_labelling.specs.declared.rule.LabelRule.{LabelRule as Rule};
ghost use Rattle.fab_labelling.specs.declared.rule.Side.{Side as OneSide};
ghost use Rattle.fab_authority.specs.Authority.{HasFew};
ghost use Rattle.fab_check.specs.Noted.{noted};
ghost use Rattle.fab_check.specs.declared.error.LabelError.TheVariants.{Refused};

use crate::error::LabelError;
use crate::methods::{note_methods, note_roots};
use crate::requests::note_sessions;
use crate::sites::pcs_of;
use crate::verdicts::Verdicts;
use fab_authority::used_sets;
use fab_base::{NoMemory, Seq};
use fab_labelling::Refusal;
use fab_principals::Acts;
use fab_tree::resolved::Resolved;
use std::alloc::Global;

/// A bundle that is well labelled, and the labels under which each of its sites stands, in the order
/// of the text.
#[derive(Drop)]
pub struct Checked<'a> {
    pub start: &'a Resolved,
    pub pcs: Seq<Seq<u16>>,
}

/// The first refusal among all that a bundle owes its labels.
#[tactic(auto, using(crate::proofs::Parts::in_parts, crate::proofs::Parts::start_stays), unfolding(crate::specs::Noted::all_noted))]
fn first_refusal(alloc: Global, start: &Resolved, acts: &Acts) -> Result<Option<Refusal>, NoMemory>
    requires of { acts.now ≡ delegations_of start.now }
    requires few { HasFew start.now }
    ensures { IfOk result (λ first. first ≡ noted start.now Nothing (owed start.now)) }
{
    let sets = used_sets(alloc, start)?;
    let mut verdicts = Verdicts::make(alloc, start, acts);
    let count = start.nodes.len() as u16;
    note_methods(&mut verdicts, start)?;
    note_roots(&mut verdicts, start.roots.as_slice());
    note_sessions(
        &mut verdicts,
        sets.as_slice(),
        start.sessions.as_slice(),
        count,
    );
    Ok(verdicts.first())
}

/// Whether a bundle keeps the rules of labels: then with the labels of its sites, else its first
/// refusal, by its place, and at one place by the order of the rules.
pub fn check<'a>(alloc: Global, start: &'a Resolved, acts: &Acts) -> Result<Checked<'a>, LabelError>
    requires of { acts.now ≡ delegations_of start.now }
    requires few { HasFew start.now }
    ensures right { IfOk result (λ _. IsWellLabelled start.now) }
    ensures start { IfOk result (λ c. c.start.now ≡ start.now) }
    ensures pcs { IfOk result (λ c. c.pcs ≡ pcs_of start.now) }
    ensures refused { (rule : Rule) (at : ℕ) (source target : OneSide) → result ≡ Refusing (Refused rule at source target) → IsFirstRefusal start.now (record { rule = rule; at = at; source = source; target = target }) }
{
    match first_refusal(alloc, start, acts)? {
        Some(
            Refusal {
                rule,
                at,
                source,
                target,
            },
        ) => Err(LabelError::Refused {
            rule,
            at,
            source,
            target,
        }),
        None => Ok(Checked {
            start,
            pcs: pcs_of(alloc, start)?,
        }),
    }
}
