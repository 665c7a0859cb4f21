//! What stands at the foot of a node's line.

use fab_base::Seq;

/// A line of text at the foot of the line of the node of this number.
#[derive(Debug, Drop)]
pub struct Foot {
    pub node: u16,
    pub text: Seq<u8>,
}
