//! The reply of `infer` to a text that has a bundle.
ghost use Rattle.std.specs.Prelude.{◌≡◌, None as Nothing, IfOk, MatchOption, map};
ghost use Rattle.fab_tree.specs.Limits.{first_passed};
ghost use Rattle.fab_language.specs.Faults.{faults, IsFirst};
ghost use Rattle.fab_language.specs.Flows.{delegations_of};
ghost use Rattle.fab_language.specs.Numbers.{resolved as resolved_of};
ghost use Rattle.fab_authority.specs.Authority.{HasFew};
ghost use Rattle.fab_holes.specs.Holes.{IsNamed};
ghost use Rattle.fab_infer.specs.Small.{IsSmall};
ghost use Rattle.fab_front.specs.Front.{IsFront};
ghost use Rattle.fab_front.specs.declared.texts.Outcome.TheVariants.{Bundle};
ghost use Rattle.fab_inferred.specs.Infers.{IsInferred, first_filled};

use fab_base::{NoMemory, Seq};
use fab_front::{Outcome, Status, front, mislabelled, named, no_least, refused};
use fab_holes::one_answer;
use fab_infer::{
    InferError, fill, filled_bundles_keep_the_rules_of_names, holes, infer,
    numbered_bundles_are_taken,
};
use fab_labelling::Refusal;
use fab_language::Fault;
use fab_numbers::numbered;
use fab_principals::Acts;
use fab_print::print_start;
use fab_tables::Tables;
use fab_tree::Start;
use fab_tree::resolved::Resolved;
use std::alloc::{AllocError, Global};

/// The bundle of a text, read once more.
fn again(alloc: Global, text: &[u8], start: &Start) -> Result<Start, NoMemory>
    requires { IsFront text.now (Bundle start.now) }
    ensures { IfOk result (λ s. s ≡ start.now) }
{
    let _start = start;
    match front(alloc, text)? {
        Outcome::Bundle(start) => Ok(start),
        Outcome::Syntax { .. } | Outcome::Limit { .. } => unreachable!(),
    }
}

/// The first declared label for each of these holes.
fn firsts(alloc: Global, places: &[u32]) -> Result<Seq<u16>, NoMemory>
    ensures { IfOk result (λ labels. labels ≡ map (λ at. 0) places.now) }
{
    let mut labels = Seq::new(alloc);
    let mut rest = places;
    'places: while let Some((_, after)) = rest.split_first() {
        labels.push(0)?;
        rest = after;
    }
    Ok(labels)
}

/// The first fault of names and types, with the first declared label for each hole. Filling takes the tree, so the
/// text is read once more for it.
fn fault_of(alloc: Global, text: &[u8], start: &Start) -> Result<Option<Fault>, NoMemory>
    requires { IsFront text.now (Bundle start.now) }
    ensures { IfOk result (λ found. MatchOption found (IsNamed start.now) (IsFirst (faults (first_filled start.now)))) }
{
    filled_bundles_keep_the_rules_of_names();
    let places = holes(alloc, start)?;
    let labels = firsts(alloc, places.as_slice())?;
    let taken = again(alloc, text, start)?;
    let first = fill(alloc, taken, labels.as_slice())?;
    match named(alloc, &first)? {
        Ok(_) => Ok(None),
        Err(fault) => Ok(Some(fault)),
    }
}

/// The bundle with numbers for names; a hole's label has the number behind the last.
fn numbers(alloc: Global, start: &Start) -> Result<Resolved, NoMemory>
    requires { first_passed start.now ≡ Nothing }
    ensures { IfOk result (λ r. r ≡ resolved_of start.now) }
{
    let tables = Tables::make(alloc, start)?;
    numbered(alloc, &tables)
}

/// What is replied once the names are right.
fn least(
    alloc: Global,
    text: &[u8],
    start: Start,
    resolved: Resolved,
    acts: &Acts,
) -> Result<(Status, Seq<u8>), NoMemory>
    requires front { IsFront text.now (Bundle start) }
    requires right { IsNamed start }
    requires numbers { resolved ≡ resolved_of start }
    requires of { acts.now ≡ delegations_of resolved }
    requires few { HasFew resolved }
    requires small { IsSmall resolved }
    ensures { IfOk result (λ r. IsInferred text.now r.0 r.1) }
{
    let _text = text;
    one_answer();
    filled_bundles_keep_the_rules_of_names();
    match infer(alloc, resolved, acts) {
        Ok((_, choice)) => {
            let filled = fill(alloc, start, choice.as_slice())?;
            let reply = print_start(alloc, &filled)?;
            Ok((Status::Ok, reply))
        }
        Err(InferError::NoLeast { at }) => no_least(alloc, at),
        Err(
            InferError::NoSolution {
                rule,
                at,
                source,
                target,
            },
        ) => {
            let resolved = numbers(alloc, &start)?;
            let refusal = Refusal {
                rule,
                at,
                source,
                target,
            };
            mislabelled(alloc, &resolved, refusal)
        }
        Err(InferError::Memory) => Err(AllocError),
    }
}

/// What `infer` replies to a text with this bundle: the canonical text with the least labels for its holes, or why
/// there is none. The text is read twice and its names are looked at once; then it costs what inference does.
pub fn inferred(alloc: Global, text: &[u8], start: Start) -> Result<(Status, Seq<u8>), NoMemory>
    requires { IsFront text.now (Bundle start) }
    ensures { IfOk result (λ r. IsInferred text.now r.0 r.1) }
{
    if let Some(fault) = fault_of(alloc, text, &start)? {
        return refused(alloc, fault);
    }
    filled_bundles_keep_the_rules_of_names();
    numbered_bundles_are_taken();
    let resolved = numbers(alloc, &start)?;
    let count = resolved.nodes.len() as u16;
    let acts = Acts::close(alloc, count, resolved.pairs.as_slice())?;
    least(alloc, text, start, resolved, &acts)
}
