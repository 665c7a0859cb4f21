//! What a run releases to a set of nodes.

use fab_base::{Answer, Seq, Tid, Value};

/// An entry of the release record of a set of nodes. Workers and stores are those outside the set,
/// by their numbers among the nodes; a sender is in it.
#[derive(Debug, Drop)]
pub enum Release {
    /// Bytes of a node of the set reach a node.
    Received {
        node: u16,
        sender: u16,
        bytes: Seq<u8>,
    },
    /// A worker begins an attempt of its request of this number, from 1.
    Begin {
        worker: u16,
        request: u32,
    },
    /// A value was downgraded into what the set sees.
    Down {
        worker: u16,
        value: Value,
    },
    /// An evaluation has touched one more object that the set sees, at a store outside it, and read it
    /// in this version.
    Got {
        worker: u16,
        version: u32,
    },
    /// An evaluation lacks an object of a store in the set.
    Ask {
        worker: u16,
    },
    Ended {
        worker: u16,
    },
    Failed {
        worker: u16,
    },
    Stopped {
        worker: u16,
    },
    /// An attempt is over: with a commit, or without one.
    Decided {
        worker: u16,
        commit: bool,
    },
    /// A store applies what an attempt of a worker outside the set wrote and made there.
    Applied {
        store: u16,
        tid: Tid,
    },
    /// A store's vote to a worker in the set.
    Voted {
        store: u16,
        tid: Tid,
        answer: Answer,
    },
    Crash {
        node: u16,
    },
    Recover {
        node: u16,
    },
}

/// An entry of the record. What comes of a quiet one isn't sent: its node goes down in the same event.
#[derive(Debug, Drop)]
pub struct Released {
    pub quiet: bool,
    pub release: Release,
}
