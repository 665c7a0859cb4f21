//! Posts, crashes and schedules, with numbers for names.
ghost use Rattle.std.specs.Prelude.{◌≡◌};
ghost use Rattle.fab_language.specs.Numbers.{step_of};

use crate::parts::Numbered;
use fab_base::{NoMemory, Seq};
use fab_tables::Tables;
use fab_tree::resolved::{Crash, Event as NumberedEvent, Post, Step as NumberedStep};
use fab_tree::{CrashLine, Event, PostLine, Step};
use std::alloc::Global;

impl Numbered for PostLine {
    ghost use Rattle.fab_language.specs.Numbers.{post_of};

    type Made = Post;

    ghost made = { post_of };

    fn numbered(&self, alloc: Global, tables: &Tables<'_>) -> Result<Post, NoMemory> {
        Ok(Post {
            sender: tables.node_number(&self.sender),
            receiver: tables.node_number(&self.receiver),
            bytes: Seq::from_slice(alloc, self.bytes.as_slice())?,
        })
    }
}

impl Numbered for CrashLine {
    ghost use Rattle.fab_language.specs.Numbers.{crash_of};

    type Made = Crash;

    ghost made = { crash_of };

    fn numbered(&self, alloc: Global, tables: &Tables<'_>) -> Result<Crash, NoMemory> {
        Ok(Crash {
            node: tables.node_number(&self.node),
            after: self.after,
            keep: self.keep,
        })
    }
}

impl Numbered for Event {
    ghost use Rattle.fab_language.specs.Numbers.{event_of};

    type Made = NumberedEvent;

    ghost made = { event_of };

    fn numbered(&self, alloc: Global, tables: &Tables<'_>) -> Result<NumberedEvent, NoMemory> {
        Ok(match self {
            Event::Step(step) => NumberedEvent::Step(numbered_step(tables, step)),
            Event::CrashIn { keep, step } => NumberedEvent::CrashIn {
                keep: *keep,
                step: numbered_step(tables, step),
            },
            Event::Post(node) => NumberedEvent::Post(tables.node_number(node)),
            Event::Crash(node) => NumberedEvent::Crash(tables.node_number(node)),
        })
    }
}

fn numbered_step(tables: &Tables<'_>, step: &Step) -> NumberedStep
    ensures { result ≡ step_of tables.now step.now }
{
    match step {
        Step::Begin(node) => NumberedStep::Begin(tables.node_number(node)),
        Step::Resume(node) => NumberedStep::Resume(tables.node_number(node)),
        Step::Deliver { sender, receiver } => NumberedStep::Deliver {
            sender: tables.node_number(sender),
            receiver: tables.node_number(receiver),
        },
        Step::Idle { worker, node } => NumberedStep::Idle {
            worker: tables.node_number(worker),
            node: tables.node_number(node),
        },
        Step::Recover(node) => NumberedStep::Recover(tables.node_number(node)),
    }
}
