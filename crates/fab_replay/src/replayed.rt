//! What is wanted of a replay, and what it comes to.

ghost use Rattle.std.specs.Prelude.{◌≡◌};
ghost use Rattle.fab_replay.specs.Replays.{reading_of, with_counts};
ghost use Rattle.fab_replay.specs.declared.replayed.Wanted.TheVariants as wants;

use fab_base::Seq;
use fab_places::Seen;
use fab_reads::Reading;
use fab_tree::resolved::Resolved;

/// What is to be told of a run that the nodes make by themselves: its report, or its summary; or its report, and behind
/// it what somebody reads beside the run. Of how many commits each read saw the state is known behind the run alone:
/// before it there are no counts.
#[derive(Debug, Drop)]
pub enum Told {
    Report,
    Summary,
    Reads { reading: Reading, counts: Seq<u32> },
}

impl Told {
    /// What is to be read beside the run.
    pub(crate) fn reading(&self) -> Option<Reading>
        ensures { result ≡ reading_of self.now }
    {
        match self {
            Told::Reads { reading, .. } => Some(*reading),
            Told::Report | Told::Summary => None,
        }
    }

    /// The same with these counts, where something is read.
    pub(crate) fn with_counts(&self, counts: Seq<u32>) -> Told
        ensures { wants.Run result ≡ with_counts (wants.Run self.now) counts }
    {
        match self {
            Told::Report => Told::Report,
            Told::Summary => Told::Summary,
            Told::Reads { reading, .. } => Told::Reads {
                reading: *reading,
                counts,
            },
        }
    }
}

/// What is wanted: the report of the schedule's run; what is to be told of a run that the nodes make by themselves;
/// what was sent in the schedule's run into a set of nodes, as a mask, by those outside it, for which what
/// the set sees is kept and what everybody may know of the bundle; or trusted replay of that run without such a
/// set, for which the labels and classes that exclude it are kept.
#[derive(Debug, Drop)]
pub enum Wanted {
    Report,
    Run(Told),
    View {
        nodes: u64,
        seen: Seen,
        part: Resolved,
    },
    Trust {
        nodes: u64,
        part: Seen,
    },
}

/// What a run comes to: its text; the number, from 1, of the first event of the schedule that may not come; or
/// the node whose journal failed first, with the text of the run, if there is one: a schedule's ends there, and
/// in one that nodes make by themselves the others go on.
#[derive(Debug, Drop)]
pub enum Replayed {
    Done(Seq<u8>),
    NotEnabled { event: u32 },
    JournalFault { node: u16, report: Option<Seq<u8>> },
}
