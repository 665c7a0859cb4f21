//! Reports, read.
ghost use Rattle.std.specs.Prelude.{◌≡◌, ◌<◌, ◌∷◌, IfOk, length};
ghost use Rattle.std.specs.Fmt.{decimal};
ghost use Rattle.fab_wire.specs.Reading.{Gives};
ghost use Rattle.fab_reports.specs.Reading.{counted, line_by, line_at, report_at, all_of};

use crate::events::event_of;
use crate::kinds::{LineKind, lines_from};
use crate::line::Line;
use crate::objects::object_of;
use crate::place::{FIRST, Place, behind_line, was_last};
use crate::requests::{commit_of, outcome_of};
use crate::word::{behind, one_of};
use fab_base::Seq;
use fab_wire::{Stop, byte_of};
use std::alloc::Global;

/// The bytes behind this number, which ends with this byte.
fn behind_number(alloc: Global, number: u32, end: u8, bytes: &[u8]) -> Result<&[u8], Stop>
    ensures { Gives (λ rest. ((decimal number, end), rest.now)) result (counted number end bytes.now) }
{
    let text = format!(in alloc; "{number}")?;
    let rest = behind(text.as_str().as_bytes(), bytes)?;
    let (_end, rest) = byte_of(rest, end, end)?;
    Ok(rest)
}

fn line_of_kind(
    alloc: Global,
    place: Place,
    kind: LineKind,
    bytes: &[u8],
) -> Result<(Line, &[u8]), Stop>
    requires events { place.events < 4294967295 }
    requires commits { place.commits < 4294967295 }
    ensures { Gives (λ x. (x.0, x.1.now)) result (line_by place kind bytes.now) }
{
    match kind {
        LineKind::Event => {
            let number = place.events + 1;
            let rest = behind_number(alloc, number, b' ', bytes)?;
            let (event, rest) = event_of(alloc, rest)?;
            Ok((Line::Event { number, event }, rest))
        }
        LineKind::Commit => {
            let number = place.commits + 1;
            let rest = behind_number(alloc, number, b' ', bytes)?;
            let (commit, rest) = commit_of(alloc, rest)?;
            Ok((Line::Commit { number, commit }, rest))
        }
        LineKind::Outcome => {
            let (outcome, rest) = outcome_of(alloc, bytes)?;
            Ok((Line::Outcome(outcome), rest))
        }
        LineKind::Object => {
            let (object, rest) = object_of(alloc, bytes)?;
            Ok((Line::Object(object), rest))
        }
        LineKind::End => {
            let events = place.events;
            let rest = behind_number(alloc, events, b'\n', bytes)?;
            Ok((Line::End { events }, rest))
        }
    }
}

/// The line at this place.
#[tactic(auto, unfolding(crate::specs::Reading::line_at))]
fn line_of(alloc: Global, place: Place, bytes: &[u8]) -> Result<(Line, &[u8]), Stop>
    requires events { place.events < 4294967295 }
    requires commits { place.commits < 4294967295 }
    ensures { Gives (λ x. (x.0, x.1.now)) result (line_at place bytes.now) }
{
    let (kind, rest) = one_of(lines_from(place.last), bytes)?;
    line_of_kind(alloc, place, kind, rest)
}

/// The lines of the report at the front.
pub fn report_of(alloc: Global, bytes: &[u8]) -> Result<(Seq<Line>, &[u8]), Stop>
    requires { length bytes.now < 4294967295 }
    ensures { Gives (λ x. (x.0, x.1.now)) result (report_at bytes.now) }
{
    let mut rest = behind(b"fab report 1\n", bytes)?;
    let mut lines = Seq::new(alloc);
    lines.push(Line::Head)?;
    let mut place = FIRST;
    'lines: while !was_last(place) {
        let (line, after) = line_of(alloc, place, rest)?;
        place = behind_line(place, &line);
        lines.push(line)?;
        rest = after;
    }
    Ok((lines, rest))
}

/// The lines of all of the bytes.
#[tactic(auto, unfolding(crate::specs::Reading::all_of))]
pub(crate) fn whole_of(alloc: Global, bytes: &[u8]) -> Result<Seq<Line>, Stop>
    requires { length bytes.now < 4294967295 }
    ensures { Gives (λ lines. lines) result (all_of bytes.now) }
{
    let (lines, rest) = report_of(alloc, bytes)?;
    if !rest.is_empty() {
        return Err(Stop::Bad { left: rest.len() });
    }
    Ok(lines)
}
