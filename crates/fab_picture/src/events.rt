//! The events of a report with the numbers of their nodes.
ghost use Rattle.std.specs.Prelude.{◌≡◌, IfOk};
ghost use Rattle.fab_marks.specs.Nodes.{number_of as number_in};
ghost use Rattle.fab_picture.specs.Moves.{alone, between, move_inner, move_of, moves};

use fab_base::{NoMemory, Seq, Text};
use fab_marks::{Move, Sign, number_of};
use fab_reports::{Line, ShownEvent, ShownInner};
use fab_tree::resolved::Resolved;
use std::alloc::Global;

/// The number of the node of a name.
pub(crate) fn number(start: &Resolved, name: &Text) -> u16
    ensures { result ≡ number_in start.now name.now }
{
    number_of(start, name.as_str().as_bytes())
}

/// What happened at a node.
fn alone(alloc: Global, number: u32, cut: Option<u32>, sign: Sign, node: u16) -> Move
    ensures { result ≡ alone number cut sign node }
{
    Move {
        number,
        cut,
        sign,
        node,
        other: node,
        bytes: Seq::new(alloc),
    }
}

/// What happened between a node and another one, with bytes.
fn between(number: u32, cut: Option<u32>, sign: Sign, node: u16, other: u16, bytes: Seq<u8>) -> Move
    ensures { result ≡ between number cut sign node other bytes }
{
    Move {
        number,
        cut,
        sign,
        node,
        other,
        bytes,
    }
}

/// An event that may be cut.
fn move_inner(
    alloc: Global,
    start: &Resolved,
    at: u32,
    cut: Option<u32>,
    event: &ShownInner,
) -> Result<Move, NoMemory>
    ensures { IfOk result (λ x. x ≡ move_inner start.now at cut event.now) }
{
    match event {
        ShownInner::Begin { worker } => {
            Ok(alone(alloc, at, cut, Sign::Begin, number(start, worker)))
        }
        ShownInner::Resume { worker } => {
            Ok(alone(alloc, at, cut, Sign::Resume, number(start, worker)))
        }
        ShownInner::Deliver {
            sender,
            receiver,
            bytes,
        } => {
            let bytes = Seq::from_slice(alloc, bytes.as_slice())?;
            let node = number(start, receiver);
            Ok(between(at, cut, Sign::Deliver, node, number(start, sender), bytes))
        }
        ShownInner::Idle { worker, node } => {
            let bytes = Seq::new(alloc);
            let other = number(start, node);
            Ok(between(at, cut, Sign::Idle, number(start, worker), other, bytes))
        }
        ShownInner::Recover { node } => {
            Ok(alone(alloc, at, cut, Sign::Recover, number(start, node)))
        }
    }
}

/// An event.
fn move_of(alloc: Global, start: &Resolved, at: u32, event: &ShownEvent) -> Result<Move, NoMemory>
    ensures { IfOk result (λ x. x ≡ move_of start.now at event.now) }
{
    match event {
        ShownEvent::Inner(event) => move_inner(alloc, start, at, None, event),
        ShownEvent::Post {
            sender,
            receiver,
            bytes,
        } => {
            let bytes = Seq::from_slice(alloc, bytes.as_slice())?;
            let node = number(start, sender);
            Ok(between(at, None, Sign::Post, node, number(start, receiver), bytes))
        }
        ShownEvent::Crash { node } => {
            Ok(alone(alloc, at, None, Sign::Crash, number(start, node)))
        }
        ShownEvent::CrashIn { keep, event } => move_inner(alloc, start, at, Some(*keep), event),
    }
}

/// The events of a report, in order.
pub(crate) fn moves(alloc: Global, start: &Resolved, lines: &[Line]) -> Result<Seq<Move>, NoMemory>
    ensures { IfOk result (λ xs. xs ≡ moves start.now lines.now) }
{
    let mut events = Seq::new(alloc);
    let mut rest = lines;
    'lines: while let Some((line, later)) = rest.split_first() {
        if let Line::Event { number, event } = line {
            events.push(move_of(alloc, start, *number, event)?)?;
        }
        rest = later;
    }
    Ok(events)
}
