//! What is found due at a node.

use fab_net::Inner;

/// What is due at a node: its crash, the end of its evaluation, another event that it does, or a post of this node to it.
#[derive(Clone, Copy, Debug)]
pub(crate) enum Found {
    Crash,
    Evaluation,
    Does(Inner),
    Post(u16),
}
