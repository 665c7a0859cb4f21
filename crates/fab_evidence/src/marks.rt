//! The marks of the events that lines tell.

ghost use Rattle.std.specs.Prelude.{◌≡◌, ◌==◌, ◌∷◌, List, IfOk, OnOk};
ghost use Rattle.std.specs.List.{list_any};
ghost use Rattle.std.specs.Option.{option_map};
ghost use Rattle.fab_language.specs.Words.{has_number};
ghost use Rattle.fab_reports.specs.declared.line.Line.{Line};
ghost use Rattle.fab_reports.specs.declared.line.ShownEvent.{ShownEvent};
ghost use Rattle.fab_evidence.specs.Named.{name_at, named_event, node_named};
ghost use Rattle.fab_evidence.specs.Marks.{is_marked, is_open_of, is_waiting, told_in};
ghost use Rattle.fab_evidence.specs.Telling.{AreNodesOf, IsTold};

use crate::named::{name_at, named_event, node_named};
use crate::shown::Told;
use fab_base::{NoMemory, Seq};
use fab_net::{Event, node_of};
use fab_reports::{Line, ShownEnding, ShownEvent};
use fab_rights::Rights;
use fab_tree::resolved::Resolved;
use std::alloc::Global;

/// Whether the node of this name has this number.
fn is_named(program: &Resolved, number: u16, name: &str) -> bool
    ensures { result ≡ has_number number (node_named program.now name.now) }
{
    match node_named(program, name) {
        Some(node) => number == node,
        None => false,
    }
}

/// Whether it is such a line.
fn is_open_of(program: &Resolved, number: u16, line: &Line) -> bool
    ensures { result ≡ is_open_of program.now number line.now }
{
    match line {
        Line::Outcome(outcome) => {
            matches!(outcome.ending, ShownEnding::Unfinished)
                && is_named(program, number, outcome.worker.as_str())
        }
        _ => false,
    }
}

/// Whether a line says that a request of this node is open.
fn has_open(program: &Resolved, lines: &[Line], number: u16) -> bool
    ensures { result ≡ list_any (is_open_of program.now number) lines.now }
{
    lines.iter().any(|line| is_open_of(program, number, line))
}

/// Whether it is a worker, and a line says that a request of it is open.
fn is_waiting(program: &Resolved, rights: &Rights, lines: &[Line], number: u16) -> bool
    ensures { result ≡ is_waiting program.now rights.now lines.now number }
{
    rights.is_worker(number) && has_open(program, lines, number)
}

/// Whether an event is marked, behind which there are events of these nodes.
fn is_marked(
    program: &Resolved,
    rights: &Rights,
    lines: &[Line],
    event: Event,
    nodes: &[u16],
) -> bool
    ensures { (behind : List ShownEvent) → AreNodesOf program.now nodes.now behind → result ≡ is_marked program.now rights.now lines.now event behind }
{
    match event {
        Event::CrashIn(0, inner) => {
            let node = node_of(inner);
            !is_among(nodes, node) && !is_waiting(program, rights, lines, node)
        }
        _ => false,
    }
}

/// Whether a number is among these.
fn is_among(numbers: &[u16], number: u16) -> bool
    ensures { result ≡ list_any (λ m. m == number) numbers.now }
{
    numbers.iter().any(|m| *m == number)
}

/// What a line of an event tells, behind which there are events of these nodes.
fn told_of(
    program: &Resolved,
    rights: &Rights,
    lines: &[Line],
    event: &ShownEvent,
    nodes: &[u16],
) -> Option<Told>
    ensures { (behind : List ShownEvent) → AreNodesOf program.now nodes.now behind
        → result ≡ option_map (λ x. record { event = x; marked = is_marked program.now rights.now lines.now x behind }) (named_event program.now event.now) }
{
    match named_event(program, event) {
        Some(event) => Some(Told {
            event,
            marked: is_marked(program, rights, lines, event, nodes),
        }),
        None => None,
    }
}

/// Adds the node of an event to those of the events behind it.
fn add_node(program: &Resolved, event: &ShownEvent, nodes: &mut Vec<u16>) -> Result<(), NoMemory>
    ensures { OnOk result ((behind : List ShownEvent) → AreNodesOf program.now nodes.old.items behind → AreNodesOf program.now nodes.new.items (event.now ∷ behind)) }
{
    match node_named(program, name_at(event)) {
        Some(node) if !is_among(nodes.as_slice(), node) => {
            nodes.push(node)?;
            Ok(())
        }
        _ => Ok(()),
    }
}

/// Adds what a line tells to what those behind it tell.
fn tell(
    program: &Resolved,
    rights: &Rights,
    lines: &[Line],
    line: &Line,
    nodes: &mut Vec<u16>,
    told: &mut Vec<Option<Told>>,
) -> Result<(), NoMemory>
    ensures { OnOk result ((behind : List Line) → IsTold program.now rights.now lines.now behind nodes.old.items told.old.items
        → IsTold program.now rights.now lines.now (line.now ∷ behind) nodes.new.items told.new.items) }
{
    match line {
        Line::Event { event, .. } => {
            told.push(told_of(program, rights, lines, event, nodes.as_slice()))?;
            add_node(program, event, nodes)
        }
        _ => Ok(()),
    }
}

/// What the lines of a report tell of a run: of each event what it is, with its mark, and nothing of one with
/// a name that is no node's. It goes over the lines once, and once more for each node whose last event was
/// cut before its first byte.
pub fn told_in(
    alloc: Global,
    program: &Resolved,
    rights: &Rights,
    lines: &[Line],
) -> Result<Seq<Option<Told>>, NoMemory>
    ensures { IfOk result (λ told. told ≡ told_in program.now rights.now lines.now) }
{
    let mut nodes = Vec::new(alloc);
    let mut told = Vec::new(alloc);
    let mut rest = lines;
    'lines: while let Some((line, front)) = rest.split_last() {
        tell(program, rights, lines, line, &mut nodes, &mut told)?;
        rest = front;
    }
    told.reverse();
    Ok(Seq::from_vec(told))
}
