//! The words by which events, endings and lines are told apart, each with what ends it.
ghost use Rattle.std.specs.Prelude.{◌≡◌};
ghost use Rattle.fab_reports.specs.Kinds.{kinds_from};

use crate::word::Word;
use fab_base::Stop;
use fab_net::Denial;

/// Which event that may be cut.
#[derive(Clone, Copy, Debug)]
pub(crate) enum InnerKind {
    Begin,
    Resume,
    Deliver,
    Idle,
    Recover,
}

/// Which event.
#[derive(Clone, Copy, Debug)]
pub(crate) enum EventKind {
    Inner(InnerKind),
    Post,
    Crash,
    CrashIn,
}

/// Which ending.
#[derive(Clone, Copy, Debug)]
pub(crate) enum EndingKind {
    Committed,
    Failed,
    Conflict,
    Silent,
    Denied,
    Stopped,
    NodeDown,
    Unfinished,
}

/// Which line behind the first.
#[derive(Clone, Copy, Debug)]
pub(crate) enum LineKind {
    Event,
    Commit,
    Outcome,
    Object,
    End,
}

impl Word for InnerKind {
    ghost use Rattle.fab_reports.specs.Kinds.{inner_kind_text};

    ghost text = { inner_kind_text };

    fn text(self) -> &'static [u8] {
        match self {
            InnerKind::Begin => b"begin ",
            InnerKind::Resume => b"resume ",
            InnerKind::Deliver => b"deliver ",
            InnerKind::Idle => b"idle ",
            InnerKind::Recover => b"recover ",
        }
    }
}

impl Word for EventKind {
    ghost use Rattle.fab_reports.specs.Kinds.{event_kind_text};

    ghost text = { event_kind_text };

    fn text(self) -> &'static [u8] {
        match self {
            EventKind::Inner(kind) => kind.text(),
            EventKind::Post => b"post ",
            EventKind::Crash => b"crash ",
            EventKind::CrashIn => b"crashin ",
        }
    }
}

impl Word for EndingKind {
    ghost use Rattle.fab_reports.specs.Kinds.{ending_kind_text};

    ghost text = { ending_kind_text };

    fn text(self) -> &'static [u8] {
        match self {
            EndingKind::Committed => b"committed ",
            EndingKind::Failed => b"failed\n",
            EndingKind::Conflict => b"conflict\n",
            EndingKind::Silent => b"silent ",
            EndingKind::Denied => b"denied ",
            EndingKind::Stopped => b"stopped ",
            EndingKind::NodeDown => b"down\n",
            EndingKind::Unfinished => b"open\n",
        }
    }
}

impl Word for Denial {
    ghost use Rattle.fab_reports.specs.Kinds.{denial_kind_text};

    ghost text = { denial_kind_text };

    fn text(self) -> &'static [u8] {
        match self {
            Denial::Rights => b"rights\n",
            Denial::IllFormed => b"illformed\n",
        }
    }
}

impl Word for Stop {
    ghost use Rattle.fab_reports.specs.Kinds.{stop_kind_text};

    ghost text = { stop_kind_text };

    fn text(self) -> &'static [u8] {
        match self {
            Stop::Fuel => b"fuel\n",
            Stop::Depth => b"depth\n",
            Stop::Reads => b"reads\n",
            Stop::Writes => b"writes\n",
        }
    }
}

impl Word for LineKind {
    ghost use Rattle.fab_reports.specs.Kinds.{line_kind_text};

    ghost text = { line_kind_text };

    fn text(self) -> &'static [u8] {
        match self {
            LineKind::Event => b"event ",
            LineKind::Commit => b"commit ",
            LineKind::Outcome => b"outcome ",
            LineKind::Object => b"object ",
            LineKind::End => b"end ",
        }
    }
}

/// What may stand behind a line: lines of its kind and of those that come later.
pub(crate) fn lines_from(last: LineKind) -> &'static [LineKind]
    ensures { result.now ≡ kinds_from last }
{
    match last {
        LineKind::Event => &[
            LineKind::Event,
            LineKind::Commit,
            LineKind::Outcome,
            LineKind::Object,
            LineKind::End,
        ],
        LineKind::Commit => &[
            LineKind::Commit,
            LineKind::Outcome,
            LineKind::Object,
            LineKind::End,
        ],
        LineKind::Outcome => &[LineKind::Outcome, LineKind::Object, LineKind::End],
        LineKind::Object => &[LineKind::Object, LineKind::End],
        LineKind::End => &[],
    }
}
