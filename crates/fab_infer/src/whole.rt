//! The least labels for the holes of a bundle.
ghost use Rattle.std.specs.Prelude.{◌≡◌, ◌≢◌, ◌<◌, ℕ, Err as Refusing, IfOk, MatchOption, MatchResult, length};
ghost use Rattle.fab_tree.specs.declared.start.Start.{Start as Bundle};
ghost use Rattle.fab_language.specs.Flows.{delegations_of};
ghost use Rattle.fab_language.specs.Numbers.{resolved};
ghost use Rattle.fab_labelling.specs.Claims.{IsWellLabelled};
ghost use Rattle.fab_labelling.specs.Refusals.{IsFirstRefusal};
ghost use Rattle.fab_labelling.specs.declared.rule.LabelRule.{LabelRule as Rule};
ghost use Rattle.fab_labelling.specs.declared.rule.Side.{Side as OneSide};
ghost use Rattle.fab_authority.specs.Authority.{HasFew};
ghost use Rattle.fab_holes.specs.Chosen.{places_of, with_chosen};
ghost use Rattle.fab_holes.specs.Holes.{IsNamed, filled};
ghost use Rattle.fab_holes.specs.Least.{AreLeast, HasNoLeast, HasNoSolution, IsSolved};
ghost use Rattle.fab_infer.specs.Masks.{IsWithout};
ghost use Rattle.fab_infer.specs.Small.{IsSmall};
ghost use Rattle.fab_infer.specs.declared.error.InferError.TheVariants.{NoLeast as Without, NoSolution as Refused};

use crate::below::below;
use crate::choice::chosen;
use crate::error::InferError;
use crate::least::leasts;
use crate::places::places;
use crate::rows::rows;
use fab_base::{NoMemory, Seq};
use fab_check::{LabelError, check};
use fab_labelling::Refusal;
use fab_principals::Acts;
use fab_tree::resolved::Resolved;
use std::alloc::{AllocError, Global};

/// The first refusal of a bundle's labels, if there is one.
fn refusal_of(alloc: Global, start: &Resolved, acts: &Acts) -> Result<Option<Refusal>, NoMemory>
    requires of { acts.now ≡ delegations_of start.now }
    requires few { HasFew start.now }
    ensures { IfOk result (λ found. MatchOption found (IsWellLabelled start.now) (IsFirstRefusal start.now)) }
{
    match check(alloc, start, acts) {
        Ok(_) => Ok(None),
        Err(
            LabelError::Refused {
                rule,
                at,
                source,
                target,
            },
        ) => Ok(Some(Refusal {
            rule,
            at,
            source,
            target,
        })),
        Err(LabelError::Memory) => Err(AllocError),
    }
}

/// The least labels for the holes of a bundle with numbers for names, or the number of the first hole
/// that has none.
fn least_labels(
    alloc: Global,
    start: &Resolved,
    acts: &Acts,
) -> Result<Result<Seq<u16>, usize>, NoMemory>
    requires of { acts.now ≡ delegations_of start.now }
    requires small { IsSmall start.now }
    ensures bound { IfOk result (λ found. MatchResult found (λ choice. length choice ≡ length (places_of start.now)) (λ hole. hole < length (places_of start.now))) }
    ensures least { IfOk result (λ found. (s : Bundle) → IsNamed s → start.now ≡ resolved s → MatchResult found (AreLeast start.now 0) (IsWithout start.now)) }
{
    let rows = rows(alloc, start, acts)?;
    let masks = below(alloc, start)?;
    leasts(alloc, &rows, masks.as_slice())
}

/// The bundle with these labels for its holes, and the labels, where they are accepted.
fn with_least(
    alloc: Global,
    start: Resolved,
    acts: &Acts,
    labels: Seq<u16>,
) -> Result<(Resolved, Seq<u16>), InferError>
    requires of { acts.now ≡ delegations_of start }
    requires few { HasFew start }
    requires small { IsSmall start }
    ensures labels { IfOk result (λ t. t.1 ≡ labels) }
    ensures filled { IfOk result (λ t. t.0 ≡ with_chosen start labels) }
    ensures right { IfOk result (λ _. IsWellLabelled (with_chosen start labels)) }
    ensures never { (at : ℕ) → result ≢ Refusing (Without at) }
    ensures refused { (rule : Rule) (at : ℕ) (source target : OneSide) → result ≡ Refusing (Refused rule at source target) → IsFirstRefusal (with_chosen start labels) (record { rule = rule; at = at; source = source; target = target }) }
{
    let filled = chosen(alloc, start, labels.as_slice())?;
    match refusal_of(alloc, &filled, acts)? {
        None => Ok((filled, labels)),
        Some(
            Refusal {
                rule,
                at,
                source,
                target,
            },
        ) => Err(InferError::NoSolution {
            rule,
            at,
            source,
            target,
        }),
    }
}

/// The bundle, given with numbers for names, with the least label for each of its holes, and these
/// labels in the order of the text, where they are accepted. Else the first hole that has no least
/// label, or the first refusal of the least labels, where no labels at all are accepted.
pub fn infer(
    alloc: Global,
    start: Resolved,
    acts: &Acts,
) -> Result<(Resolved, Seq<u16>), InferError>
    requires of { acts.now ≡ delegations_of start }
    requires few { HasFew start }
    requires small { IsSmall start }
    ensures solved { IfOk result (λ t. (s : Bundle) → IsNamed s → start ≡ resolved s → IsSolved s t.1) }
    ensures filled { IfOk result (λ t. (s : Bundle) → IsNamed s → start ≡ resolved s → t.0 ≡ resolved (filled s t.1)) }
    ensures without { (s : Bundle) (at : ℕ) → IsNamed s → start ≡ resolved s → result ≡ Refusing (Without at) → HasNoLeast s at }
    ensures refused { (s : Bundle) (rule : Rule) (at : ℕ) (source target : OneSide) → IsNamed s → start ≡ resolved s → result ≡ Refusing (Refused rule at source target) → HasNoSolution s (record { rule = rule; at = at; source = source; target = target }) }
{
    let places = places(alloc, &start)?;
    match least_labels(alloc, &start, acts)? {
        Err(hole) => {
            let at = places.as_slice()[hole];
            Err(InferError::NoLeast { at })
        }
        Ok(labels) => with_least(alloc, start, acts, labels),
    }
}
