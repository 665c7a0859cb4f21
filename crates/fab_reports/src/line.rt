//! The lines of a report. Workers, stores, classes and roots have their names in it, since whoever
//! reads a report has no bundle.

use fab_base::{Oid, Seq, Stop, Text};
use fab_net::Denial;

/// An object by its name: that of a root, or its own, which is printed in digits.
#[derive(Debug, Drop)]
pub enum ShownName {
    Root(Text),
    Unnamed(Oid),
}

/// A value. Of a result, `none` is shown as a root's name, since a root may be called so: a request
/// that gives nothing and one that gives that root have one line.
#[derive(Debug, Drop)]
pub enum ShownValue {
    Number(i32),
    Null,
    Object(ShownName),
}

/// An event that may be cut, with the bytes that it delivers.
#[derive(Debug, Drop)]
pub enum ShownInner {
    Begin {
        worker: Text,
    },
    Resume {
        worker: Text,
    },
    Deliver {
        sender: Text,
        receiver: Text,
        bytes: Seq<u8>,
    },
    Idle {
        worker: Text,
        node: Text,
    },
    Recover {
        node: Text,
    },
}

/// An event, with the bytes that it delivers or posts. Of one that was cut, `keep` bytes of its
/// record stay.
#[derive(Debug, Drop)]
pub enum ShownEvent {
    Inner(ShownInner),
    Post {
        sender: Text,
        receiver: Text,
        bytes: Seq<u8>,
    },
    Crash {
        node: Text,
    },
    CrashIn {
        keep: u32,
        event: ShownInner,
    },
}

/// An attempt of a worker.
#[derive(Clone, Copy, Debug)]
pub struct Attempt {
    pub boot: u32,
    pub number: u32,
}

/// A committed request, and its attempt.
#[derive(Debug, Drop)]
pub struct ShownCommit {
    pub worker: Text,
    pub request: u32,
    pub attempt: Attempt,
}

/// How a request ended, or why it hasn't.
#[derive(Debug, Drop)]
pub enum ShownEnding {
    Committed {
        attempt: Attempt,
        result: ShownValue,
    },
    Failed,
    Conflict,
    Silent {
        node: Text,
    },
    Denied {
        node: Text,
        denial: Denial,
    },
    Stopped {
        stop: Stop,
    },
    NodeDown,
    Unfinished,
}

/// A request of a worker, and how it ended.
#[derive(Debug, Drop)]
pub struct ShownOutcome {
    pub worker: Text,
    pub request: u32,
    pub ending: ShownEnding,
}

/// An object that a store holds.
#[derive(Debug, Drop)]
pub struct ShownObject {
    pub store: Text,
    pub name: ShownName,
    pub class: Text,
    pub version: u32,
    pub fields: Seq<ShownValue>,
}

/// A line of a report. Events and commits have their numbers, each counted from 1, and the last line
/// has the number of events.
#[derive(Debug, Drop)]
pub enum Line {
    Head,
    Event { number: u32, event: ShownEvent },
    Commit { number: u32, commit: ShownCommit },
    Outcome(ShownOutcome),
    Object(ShownObject),
    End { events: u32 },
}
