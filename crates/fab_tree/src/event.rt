//! What a run is told to do besides its sessions: posts of hostile nodes, crashes, and a schedule.

use crate::name::Name;
use fab_base::Seq;

/// `post h -> n "..";`: bytes that a hostile node sends to a node.
#[derive(Debug)]
pub struct PostLine {
    pub sender: Name,
    pub receiver: Name,
    pub bytes: Seq<u8>,
}

impl Drop for PostLine {
    fn drop(self) {
        let PostLine {
            sender,
            receiver,
            bytes,
        } = self;
    }
}

/// `crash n after 3 keep 5;`: once the node has so many of its events and is up, its next event is a
/// crash, or, with `keep`, its next event that writes a record is cut, with so many bytes kept.
#[derive(Debug)]
pub struct CrashLine {
    pub node: Name,
    pub after: u32,
    pub keep: Option<u32>,
}

impl Drop for CrashLine {
    fn drop(self) {
        let CrashLine { node, after, keep } = self;
    }
}

/// A step of a node.
#[derive(Debug)]
pub enum Step {
    Begin(Name),
    Resume(Name),
    Deliver { sender: Name, receiver: Name },
    Idle { worker: Name, node: Name },
    Recover(Name),
}

impl Drop for Step {
    fn drop(self) {
        match self {
            Step::Begin(one) => {}
            Step::Resume(one) => {}
            Step::Deliver { sender, receiver } => {}
            Step::Idle { worker, node } => {}
            Step::Recover(one) => {}
        }
    }
}

/// An event of a schedule: a step, a step that is cut by a crash, with so many bytes of its record
/// kept, a post of a hostile node, or a crash.
#[derive(Debug)]
pub enum Event {
    Step(Step),
    CrashIn { keep: u32, step: Step },
    Post(Name),
    Crash(Name),
}

impl Drop for Event {
    fn drop(self) {
        match self {
            Event::Step(one) => {}
            Event::CrashIn { keep, step } => {}
            Event::Post(one) => {}
            Event::Crash(one) => {}
        }
    }
}
