//! The nodes whose notes events have.
ghost use Rattle.std.specs.Prelude.{◌≡◌, ℕ};
ghost use Rattle.fab_release.specs.Record.{is_of};
ghost use Rattle.fab_record.specs.Events.{is_number};

use fab_net::{Event, node_of};

/// The node whose notes an event has, if it is of one.
pub(crate) fn node_of_event(event: Event) -> Option<u16>
    ensures { (n : ℕ) → is_of n event ≡ is_number n result }
{
    match event {
        Event::Begin(n)
        | Event::Resume(n)
        | Event::Deliver(_, n)
        | Event::Idle(n, _)
        | Event::Recover(n) => Some(n),
        Event::CrashIn(_, inner) => Some(node_of(inner)),
        Event::Post(_) | Event::Crash(_) => None,
    }
}
