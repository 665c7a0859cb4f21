//! The events of nodes, and what one adds to the counts.
ghost use Rattle.std.specs.Prelude.{◌≡◌};
ghost use Rattle.fab_net.specs.Events.{uncut as whole_by};
ghost use Rattle.fab_core.specs.Planning.{IsUncut};
ghost use Rattle.fab_exchange.specs.Tallies.{counted_in, crashed_in};

use fab_core::Applied;
use fab_net::{Event, Inner};

/// The same as an event that isn't cut.
pub(crate) fn whole(inner: Inner) -> Event
    ensures same { result ≡ whole_by inner }
    ensures uncut { IsUncut result }
{
    match inner {
        Inner::Begin(node) => Event::Begin(node),
        Inner::Resume(node) => Event::Resume(node),
        Inner::Deliver(sender, receiver) => Event::Deliver(sender, receiver),
        Inner::Idle(worker, node) => Event::Idle(worker, node),
        Inner::Recover(node) => Event::Recover(node),
    }
}

/// Whether crash lines count an event.
pub(crate) fn counted_in(event: Event) -> bool
    ensures { result ≡ counted_in event }
{
    match event {
        Event::Begin(_) | Event::Resume(_) | Event::Deliver(..) | Event::Idle(..) => true,
        Event::CrashIn(_, Inner::Recover(_)) => false,
        Event::CrashIn(..) => true,
        Event::Recover(_) | Event::Post(_) | Event::Crash(_) => false,
    }
}

/// Whether a line made an event.
pub(crate) fn crashed_in(event: Event, applied: Applied) -> bool
    ensures { result ≡ crashed_in event applied }
{
    match applied {
        Applied::Whole => matches!(event, Event::CrashIn(..) | Event::Crash(_)),
        Applied::Cut => false,
    }
}
