//! Which lines of a report fit a bundle.
ghost use Rattle.std.specs.Prelude.{◌≡◌};
ghost use Rattle.fab_marks.specs.Nodes.{is_node as is_node_in};
ghost use Rattle.fab_picture.specs.Fitting.{ending_fits, event_fits, first_unfit, inner_fits, line_fits};

use fab_base::Text;
use fab_marks::is_node;
use fab_reports::{Line, ShownEnding, ShownEvent, ShownInner};
use fab_tree::resolved::Resolved;

/// Whether a worker or store has this name.
fn fits(start: &Resolved, name: &Text) -> bool
    ensures { result ≡ is_node_in start.now name.now }
{
    is_node(start, name.as_str().as_bytes())
}

fn inner_fits(start: &Resolved, event: &ShownInner) -> bool
    ensures { result ≡ inner_fits start.now event.now }
{
    match event {
        ShownInner::Begin { worker } => fits(start, worker),
        ShownInner::Resume { worker } => fits(start, worker),
        ShownInner::Deliver {
            sender,
            receiver,
            ..
        } => fits(start, sender) && fits(start, receiver),
        ShownInner::Idle { worker, node } => fits(start, worker) && fits(start, node),
        ShownInner::Recover { node } => fits(start, node),
    }
}

fn event_fits(start: &Resolved, event: &ShownEvent) -> bool
    ensures { result ≡ event_fits start.now event.now }
{
    match event {
        ShownEvent::Inner(event) => inner_fits(start, event),
        ShownEvent::Post {
            sender,
            receiver,
            ..
        } => fits(start, sender) && fits(start, receiver),
        ShownEvent::Crash { node } => fits(start, node),
        ShownEvent::CrashIn { keep: _, event } => inner_fits(start, event),
    }
}

fn ending_fits(start: &Resolved, ending: &ShownEnding) -> bool
    ensures { result ≡ ending_fits start.now ending.now }
{
    match ending {
        ShownEnding::Silent { node } => fits(start, node),
        ShownEnding::Denied { node, denial: _ } => fits(start, node),
        ShownEnding::Committed { .. }
        | ShownEnding::Failed
        | ShownEnding::Conflict
        | ShownEnding::Stopped { .. }
        | ShownEnding::NodeDown
        | ShownEnding::Unfinished => true,
    }
}

/// Whether each name of a node in a line is a node's.
fn line_fits(start: &Resolved, line: &Line) -> bool
    ensures { result ≡ line_fits start.now line.now }
{
    match line {
        Line::Head => true,
        Line::Event { number: _, event } => event_fits(start, event),
        Line::Commit { number: _, commit } => fits(start, &commit.worker),
        Line::Outcome(outcome) => {
            fits(start, &outcome.worker) && ending_fits(start, &outcome.ending)
        }
        Line::Object(object) => fits(start, &object.store),
        Line::End { events: _ } => true,
    }
}

/// How many lines stand in front of the first that doesn't fit, or none where all fit.
pub fn first_unfit(start: &Resolved, lines: &[Line]) -> Option<usize>
    ensures { result ≡ first_unfit start.now 0 lines.now }
{
    for (index, line) in lines.iter().enumerate() {
        if !line_fits(start, line) {
            return Some(index);
        }
    }
    None
}
