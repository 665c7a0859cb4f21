//! What is said of a text that has a bundle.
ghost use Rattle.std.specs.Prelude.{◌≡◌, [], find, option_copied, IfOk};
ghost use Rattle.std.specs.Str.{bytes_eq};
ghost use Rattle.fab_language.specs.Faults.{faults};
ghost use Rattle.fab_language.specs.Numbers.{resolved as resolved_of};
ghost use Rattle.fab_command.specs.declared.command.Command.TheVariants as asks;
ghost use Rattle.fab_front.specs.Front.{IsFront};
ghost use Rattle.fab_front.specs.declared.texts.Outcome.TheVariants.{Bundle};
ghost use Rattle.fab_answers.specs.Says.{IsSaid};

use fab_base::{NoMemory, Seq, Text};
use fab_evaluation::evaluation;
use fab_flows::flow_reply;
use fab_front::{Accepted, Status, accept, mislabelled, named, refused, unknown};
use fab_print::print_start;
use fab_tree::Start;
use fab_tree::resolved::{NamedLabel, Resolved};
use std::alloc::Global;

/// What `fmt` says of a text with this bundle.
pub(crate) fn format(
    alloc: Global,
    text: &[u8],
    start: &Start,
) -> Result<(Status, Seq<u8>), NoMemory>
    requires { IsFront text.now (Bundle start.now) }
    ensures { IfOk result (λ r. IsSaid asks.Format text.now r.0 r.1) }
{
    let _text = text;
    let reply = print_start(alloc, start)?;
    Ok((Status::Ok, reply))
}

/// What `check` says of a text with this bundle.
pub(crate) fn checked(
    alloc: Global,
    text: &[u8],
    start: &Start,
) -> Result<(Status, Seq<u8>), NoMemory>
    requires { IsFront text.now (Bundle start.now) }
    ensures { IfOk result (λ r. IsSaid asks.Check text.now r.0 r.1) }
{
    let _text = text;
    match accept(alloc, start)? {
        Accepted::Bundle(_) => Ok((Status::Ok, Seq::from_slice(alloc, b"ok\n")?)),
        Accepted::Misnamed(fault) => refused(alloc, fault),
        Accepted::Mislabelled { resolved, refusal } => mislabelled(alloc, &resolved, refusal),
    }
}

/// What `eval` says of a text with this bundle.
pub(crate) fn evaluate(
    alloc: Global,
    text: &[u8],
    start: &Start,
) -> Result<(Status, Seq<u8>), NoMemory>
    requires { IsFront text.now (Bundle start.now) }
    ensures { IfOk result (λ r. IsSaid asks.Evaluate text.now r.0 r.1) }
{
    let _text = text;
    match accept(alloc, start)? {
        Accepted::Bundle(resolved) => {
            let reply = evaluation(alloc, resolved)?;
            Ok((Status::Ok, reply))
        }
        Accepted::Misnamed(fault) => refused(alloc, fault),
        Accepted::Mislabelled { resolved, refusal } => mislabelled(alloc, &resolved, refusal),
    }
}

/// The label that a word of the command line names.
fn label<'a>(start: &'a Resolved, word: &Text) -> Option<&'a NamedLabel>
    ensures { option_copied result ≡ find (λ x. bytes_eq x.name.text word.now) start.now.labels }
{
    start
        .labels
        .as_slice()
        .iter()
        .find(|x| x.name.text.as_str() == word.as_str())
}

/// What `flows` says of a text with this bundle.
pub(crate) fn flows(
    alloc: Global,
    text: &[u8],
    start: &Start,
    from: &Text,
    to: &Text,
) -> Result<(Status, Seq<u8>), NoMemory>
    requires { IsFront text.now (Bundle start.now) }
    ensures { IfOk result (λ r. IsSaid (asks.Flows from.now to.now) text.now r.0 r.1) }
{
    match named(alloc, start)? {
        Ok(resolved) => flows_in(alloc, text, start, &resolved, from, to),
        Err(fault) => refused(alloc, fault),
    }
}

/// The same, with the bundle's numbers for names.
fn flows_in(
    alloc: Global,
    text: &[u8],
    start: &Start,
    resolved: &Resolved,
    from: &Text,
    to: &Text,
) -> Result<(Status, Seq<u8>), NoMemory>
    requires front { IsFront text.now (Bundle start.now) }
    requires right { faults start.now ≡ [] }
    requires is { resolved.now ≡ resolved_of start.now }
    ensures { IfOk result (λ r. IsSaid (asks.Flows from.now to.now) text.now r.0 r.1) }
{
    let _start = start;
    match label(resolved, from) {
        None => unknown(alloc, text),
        Some(one) => match label(resolved, to) {
            None => unknown(alloc, text),
            Some(other) => {
                let reply = flow_reply(alloc, resolved, &one.label, &other.label)?;
                Ok((Status::Ok, reply))
            }
        },
    }
}
