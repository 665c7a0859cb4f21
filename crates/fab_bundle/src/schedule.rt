//! The schedule: its events and their steps.
ghost use Rattle.std.specs.Prelude.{◌↔◌, IsTrue, MatchResult};
ghost use Rattle.fab_base.specs.declared.token.Mark.TheVariants.{Semicolon};
ghost use Rattle.fab_tree.specs.Lists.{Ended};
ghost use Rattle.fab_tree.specs.Runs.{IsStep, IsEvent, IsSchedule};
ghost use Rattle.fab_reading.specs.Reading.{Read, Stops, Starts, any};
ghost use Rattle.fab_bundle.specs.Pieces.{begins_step, begins_event, after_cache};

use crate::crashes::number;
use fab_base::{Kind, Mark, Seq, Token};
use fab_reading::{Refusal, Rule, behind, name, next, open, repeated, sign};
use fab_tree::{Event, Step};
use std::alloc::Global;

/// A step of a node.
fn step(alloc: Global, tokens: &[Token], room: u8) -> Result<(Step, &[Token]), Refusal>
    ensures { MatchResult result (λ x. Read IsStep any room tokens.now x.0 x.1.now) (λ e. Stops IsStep any room tokens.now e) }
{
    if let Some(rest) = behind(tokens, Mark::Begin) {
        let (worker, rest) = name(alloc, rest, room)?;
        return Ok((Step::Begin(worker), rest));
    }
    if let Some(rest) = behind(tokens, Mark::Resume) {
        let (worker, rest) = name(alloc, rest, room)?;
        return Ok((Step::Resume(worker), rest));
    }
    if let Some(rest) = behind(tokens, Mark::Deliver) {
        let (sender, rest) = name(alloc, rest, room)?;
        let (receiver, rest) = name(alloc, rest, room)?;
        return Ok((Step::Deliver { sender, receiver }, rest));
    }
    if let Some(rest) = behind(tokens, Mark::Idle) {
        let (worker, rest) = name(alloc, rest, room)?;
        let (node, rest) = name(alloc, rest, room)?;
        return Ok((Step::Idle { worker, node }, rest));
    }
    if let Some(rest) = behind(tokens, Mark::Recover) {
        let (node, rest) = name(alloc, rest, room)?;
        return Ok((Step::Recover(node), rest));
    }
    Err(Refusal::Syntax { left: tokens.len() })
}

/// Whether a step comes next.
fn starts_step(tokens: &[Token]) -> bool
    ensures { IsTrue result ↔ Starts begins_step tokens.now }
{
    match next(tokens) {
        None => false,
        Some((token, _)) => matches!(
            token.kind,
            Kind::Fixed(Mark::Begin | Mark::Resume | Mark::Deliver | Mark::Idle | Mark::Recover)
        ),
    }
}

/// A step, one that a crash cuts, a post or a crash.
fn event(alloc: Global, tokens: &[Token], room: u8) -> Result<(Event, &[Token]), Refusal>
    ensures { MatchResult result (λ x. Read IsEvent any room tokens.now x.0 x.1.now) (λ e. Stops IsEvent any room tokens.now e) }
{
    if starts_step(tokens) {
        let (step, rest) = step(alloc, tokens, room)?;
        return Ok((Event::Step(step), rest));
    }
    if let Some(rest) = behind(tokens, Mark::CrashIn) {
        let (keep, rest) = number(rest, room)?;
        let (step, rest) = step(alloc, rest, room)?;
        return Ok((Event::CrashIn { keep, step }, rest));
    }
    if let Some(rest) = behind(tokens, Mark::Post) {
        let (sender, rest) = name(alloc, rest, room)?;
        return Ok((Event::Post(sender), rest));
    }
    if let Some(rest) = behind(tokens, Mark::Crash) {
        let (node, rest) = name(alloc, rest, room)?;
        return Ok((Event::Crash(node), rest));
    }
    Err(Refusal::Syntax { left: tokens.len() })
}

/// Whether an event comes next.
fn starts_event(tokens: &[Token]) -> bool
    ensures { IsTrue result ↔ Starts begins_event tokens.now }
{
    match next(tokens) {
        None => false,
        Some((token, _)) => matches!(
            token.kind,
            Kind::Fixed(
                Mark::Begin
                    | Mark::Resume
                    | Mark::Deliver
                    | Mark::Idle
                    | Mark::Recover
                    | Mark::CrashIn
                    | Mark::Post
                    | Mark::Crash
            )
        ),
    }
}

/// An event and its semicolon.
fn line(alloc: Global, tokens: &[Token], room: u8) -> Result<(Event, &[Token]), Refusal>
    ensures { MatchResult result (λ x. Read (Ended Semicolon IsEvent) any room tokens.now x.0 x.1.now) (λ e. Stops (Ended Semicolon IsEvent) any room tokens.now e) }
{
    let (event, rest) = event(alloc, tokens, room)?;
    let rest = sign(rest, Mark::Semicolon)?;
    Ok((event, rest))
}

/// The rule of one event with its semicolon.
struct EventRule;

impl Rule for EventRule {
    ghost use Rattle.std.specs.Prelude.{refl};
    ghost use Rattle.fab_base.specs.declared.token.Mark.TheVariants.{Semicolon};
    ghost use Rattle.fab_tree.specs.Lists.{Ended};
    ghost use Rattle.fab_tree.specs.Runs.{IsEvent};
    ghost use Rattle.fab_reading.specs.Reading.{any};
    ghost use Rattle.fab_bundle.specs.Pieces.{begins_event};
    ghost use Rattle.fab_bundle.specs.Firsts.{line_begins};

    type Tree = Event;

    ghost reads = { Ended Semicolon IsEvent };

    ghost first = { begins_event };

    ghost may = { any };

    fn starts(tokens: &[Token]) -> bool {
        starts_event(tokens)
    }

    fn read(alloc: Global, tokens: &[Token], room: u8) -> Result<(Event, &[Token]), Refusal> {
        line(alloc, tokens, room)
    }

    ghost begins = { line_begins };

    ghost meets = { λ kind first. refl };
}

/// The events of the schedule, none where the text has no schedule.
pub(crate) fn schedule(
    alloc: Global,
    tokens: &[Token],
    room: u8,
) -> Result<(Seq<Event>, &[Token]), Refusal>
    ensures { MatchResult result (λ x. Read IsSchedule after_cache room tokens.now x.0 x.1.now) (λ e. Stops IsSchedule after_cache room tokens.now e) }
{
    match behind(tokens, Mark::Schedule) {
        None => Ok((Seq::new(alloc), tokens)),
        Some(rest) => {
            let (rest, inner) = open(rest, Mark::LeftBrace, room)?;
            let (events, rest) = repeated::<EventRule>(alloc, rest, inner)?;
            let rest = sign(rest, Mark::RightBrace)?;
            Ok((events, rest))
        }
    }
}
