//! Events of a report with nodes by their numbers.

use crate::shape::Sign;
use fab_base::Seq;

/// An event: its number in the report; how many bytes of its record stay where it was cut; what it is;
/// the node at which it happens; the other node of a message or of a silence, and its own node again
/// where there is none; and the bytes that are delivered or posted.
#[derive(Debug, Drop)]
pub struct Move {
    pub number: u32,
    pub cut: Option<u32>,
    pub sign: Sign,
    pub node: u16,
    pub other: u16,
    pub bytes: Seq<u8>,
}
