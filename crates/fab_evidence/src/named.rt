//! Names of nodes, and the events that lines tell by them.

ghost use Rattle.std.specs.Prelude.{◌≡◌, find, option_copied};
ghost use Rattle.std.specs.Str.{bytes_eq};
ghost use Rattle.fab_evidence.specs.Named.{named_event, named_inner, node_named, name_at, name_in};

use fab_net::{Event, Inner, uncut};
use fab_reports::{ShownEvent, ShownInner};
use fab_tree::resolved::{Principal, Resolved};

/// The first principal of this name.
fn first_named<'a>(program: &'a Resolved, name: &str) -> Option<&'a Principal>
    ensures { option_copied result ≡ find (λ x. bytes_eq x.name.text name.now) program.now.nodes }
{
    program
        .nodes
        .as_slice()
        .iter()
        .find(|x| x.name.text.as_str() == name)
}

/// The number of the worker or store of this name.
pub fn node_named(program: &Resolved, name: &str) -> Option<u16>
    ensures { result ≡ node_named program.now name.now }
{
    match first_named(program, name) {
        Some(principal) => principal.node,
        None => None,
    }
}

/// What a line tells of an event that may be cut, if its names are nodes'.
fn named_inner(program: &Resolved, event: &ShownInner) -> Option<Inner>
    ensures { result ≡ named_inner program.now event.now }
{
    match event {
        ShownInner::Begin { worker } => Some(Inner::Begin(node_named(program, worker.as_str())?)),
        ShownInner::Resume { worker } => Some(Inner::Resume(node_named(program, worker.as_str())?)),
        ShownInner::Deliver {
            sender,
            receiver,
            ..
        } => {
            let sender = node_named(program, sender.as_str())?;
            let receiver = node_named(program, receiver.as_str())?;
            Some(Inner::Deliver(sender, receiver))
        }
        ShownInner::Idle { worker, node } => {
            let worker = node_named(program, worker.as_str())?;
            let node = node_named(program, node.as_str())?;
            Some(Inner::Idle(worker, node))
        }
        ShownInner::Recover { node } => Some(Inner::Recover(node_named(program, node.as_str())?)),
    }
}

/// The event that a line tells, if its names are nodes'.
pub fn named_event(program: &Resolved, event: &ShownEvent) -> Option<Event>
    ensures { result ≡ named_event program.now event.now }
{
    match event {
        ShownEvent::Inner(inner) => Some(uncut(named_inner(program, inner)?)),
        ShownEvent::Post { sender, .. } => Some(Event::Post(node_named(program, sender.as_str())?)),
        ShownEvent::Crash { node } => Some(Event::Crash(node_named(program, node.as_str())?)),
        ShownEvent::CrashIn { keep, event } => {
            Some(Event::CrashIn(*keep, named_inner(program, event)?))
        }
    }
}

/// The name of the node that an event is of that may be cut.
fn name_in(event: &ShownInner) -> &str
    ensures { result.now ≡ name_in event.now }
{
    match event {
        ShownInner::Begin { worker }
        | ShownInner::Resume { worker }
        | ShownInner::Idle { worker, .. } => worker.as_str(),
        ShownInner::Deliver { receiver, .. } => receiver.as_str(),
        ShownInner::Recover { node } => node.as_str(),
    }
}

/// The name of the node that an event is of.
pub(crate) fn name_at(event: &ShownEvent) -> &str
    ensures { result.now ≡ name_at event.now }
{
    match event {
        ShownEvent::Inner(inner) => name_in(inner),
        ShownEvent::Post { sender, .. } => sender.as_str(),
        ShownEvent::Crash { node } => node.as_str(),
        ShownEvent::CrashIn { event, .. } => name_in(event),
    }
}
