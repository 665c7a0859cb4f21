//! Shapes of a picture, placed by columns and rows. Each node has a column of its own, from 0 on; each
//! event drawn has a row of its own, from 1 on; row 0 is that of the heads.

use fab_base::Seq;
use fab_tree::Role;

/// What happens in an event.
#[derive(Clone, Copy, Debug)]
pub enum Sign {
    Begin,
    Resume,
    Deliver,
    Post,
    Idle,
    Crash,
    Recover,
}

/// A column and a row.
#[derive(Clone, Copy, Debug)]
pub struct Spot {
    pub column: u32,
    pub row: u32,
}

/// A shape. A label is short, for a reader at a glance; a title is the whole, which a browser shows of
/// what a pointer rests on.
#[derive(Debug, Drop)]
pub enum Shape {
    /// A line of text above all.
    Caption {
        text: Seq<u8>,
    },
    /// The box of a node with its kind and name.
    Head {
        column: u32,
        role: Role,
        label: Seq<u8>,
        title: Seq<u8>,
    },
    /// A part of a node's line, from one row to another, in which it is up or not.
    Life {
        column: u32,
        from: u32,
        to: u32,
        up: bool,
    },
    /// What happens at one node.
    Mark {
        at: Spot,
        sign: Sign,
        label: Seq<u8>,
        title: Seq<u8>,
    },
    /// A message from where it was sent to where it comes or is lost. It stands out where it is sent into
    /// the set of nodes that is asked for.
    Arrow {
        from: Spot,
        to: Spot,
        lost: bool,
        stands_out: bool,
        label: Seq<u8>,
        title: Seq<u8>,
    },
    /// A line of text at the foot of a node's line.
    Note {
        at: Spot,
        label: Seq<u8>,
        title: Seq<u8>,
    },
}
