//! Where in a report a line stands.
ghost use Rattle.std.specs.Prelude.{◌≡◌, ◌<◌};
ghost use Rattle.fab_reports.specs.Reading.{is_last, is_over, place_behind, first_place};

use crate::kinds::LineKind;
use crate::line::Line;

/// How far a report was read: which line was last, and how many events and commits there were.
#[derive(Clone, Copy, Debug)]
pub(crate) struct Place {
    pub last: LineKind,
    pub events: u32,
    pub commits: u32,
}

/// Behind the head.
pub(crate) const FIRST: Place = Place {
    last: LineKind::Event,
    events: 0,
    commits: 0,
};

/// Whether the last line of the report was read.
pub(crate) fn was_last(place: Place) -> bool
    ensures { result ≡ is_over place }
{
    matches!(place.last, LineKind::End)
}

/// The place behind a line.
pub(crate) fn behind_line(place: Place, line: &Line) -> Place
    requires events { place.events < 4294967295 }
    requires commits { place.commits < 4294967295 }
    ensures { result ≡ place_behind place line.now }
{
    match line {
        Line::Head => place,
        Line::Event { .. } => Place {
            events: place.events + 1,
            ..place
        },
        Line::Commit { .. } => Place {
            last: LineKind::Commit,
            commits: place.commits + 1,
            ..place
        },
        Line::Outcome(_) => Place {
            last: LineKind::Outcome,
            ..place
        },
        Line::Object(_) => Place {
            last: LineKind::Object,
            ..place
        },
        Line::End { .. } => Place {
            last: LineKind::End,
            ..place
        },
    }
}
