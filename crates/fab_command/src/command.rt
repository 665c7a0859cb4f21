//! What may be asked of a bundle.

use fab_base::{Seq, Text};

/// What is to be told of a run that the nodes of a bundle make by themselves.
#[derive(Debug, Drop)]
pub enum Telling {
    /// Its report.
    Report,
    /// One line on its requests, and on what the stores hold behind them.
    Summary,
    /// Its report, and what somebody reads of the root of this name: so many times beside the run, and once behind it.
    Reads { root: Text, times: u32 },
}

/// What may be asked of a bundle.
#[derive(Debug, Drop)]
pub enum Command {
    /// Whether a bundle keeps the rules of labels.
    Check,
    /// The evaluation of a bundle.
    Evaluate,
    /// Whether one label of a bundle flows to another, with the reasons.
    Flows { from: Text, to: Text },
    /// A bundle's text in the one form.
    Format,
    /// The run of a bundle's schedule, and its report.
    Replay,
    /// A run of a bundle's nodes, each by itself, and what is to be told of it.
    Run(Telling),
    /// The run of the schedule, and in place of the report the messages that these nodes and the hostile ones got
    /// from the others.
    View { nodes: Seq<Text> },
    /// The run of the schedule, and in place of the report the objects of classes whose labels exclude these nodes and
    /// the hostile ones, as trusted replay gives them.
    Trust { nodes: Seq<Text> },
    /// A bundle's text with the least labels for its holes.
    Infer,
    /// Whether a report, and journals behind it, are those of a run of the bundle in front of them.
    Audit,
}
