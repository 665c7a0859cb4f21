//! The events that a schedule lists.

ghost use Rattle.std.specs.Prelude.{◌≡◌};
ghost use Rattle.fab_replay.specs.Replays.{event_of, inner_of};

use fab_net::{Event, Inner, uncut};
use fab_tree::resolved::{Event as Scheduled, Step};

/// What a step is.
fn inner_of(step: Step) -> Inner
    ensures { result ≡ inner_of step }
{
    match step {
        Step::Begin(node) => Inner::Begin(node),
        Step::Resume(node) => Inner::Resume(node),
        Step::Deliver { sender, receiver } => Inner::Deliver(sender, receiver),
        Step::Idle { worker, node } => Inner::Idle(worker, node),
        Step::Recover(node) => Inner::Recover(node),
    }
}

/// The event that stands in a schedule.
pub(crate) fn event_of(scheduled: Scheduled) -> Event
    ensures { result ≡ event_of scheduled }
{
    match scheduled {
        Scheduled::Step(step) => uncut(inner_of(step)),
        Scheduled::CrashIn { keep, step } => Event::CrashIn(keep, inner_of(step)),
        Scheduled::Post(node) => Event::Post(node),
        Scheduled::Crash(node) => Event::Crash(node),
    }
}
