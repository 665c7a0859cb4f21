//! Whether anything is left to happen but silence.

ghost use Rattle.std.specs.Prelude.{◌≡◌, ◌==◌, drop, not};
ghost use Rattle.std.specs.List.{list_any};
ghost use Rattle.fab_world.specs.Machine.{is_empty};
ghost use Rattle.fab_queues.specs.Channels.{queue_of};
ghost use Rattle.fab_nodes.specs.Slots.{slot};
ghost use Rattle.fab_nodes.specs.Seen.{all_settled_in, has_post, none_wait_in, settles_in, waits_in};

use crate::seen::{evaluates, node_at};
use crate::sending::is_node;
use fab_device::Journal;
use fab_node::{Given, Node};
use fab_queues::Queues;
use fab_tree::resolved::Post;

/// Whether a message waits from one node to another.
#[tactic(auto, using(crate::proofs::Far::far_sender, crate::proofs::Far::far_receiver))]
pub fn waits(queues: &Queues, sender: u16, receiver: u16) -> bool
    requires { queues.now.nodes ≡ 64 }
    ensures { result ≡ waits_in queues.now sender receiver }
{
    if sender < 64 && receiver < 64 {
        queues.front(sender, receiver).is_some()
    } else {
        false
    }
}

/// The posts of a bundle.
fn posts(given: &Given) -> &[Post]
    ensures { result.now ≡ given.now.program.posts }
{
    given.program().posts.as_slice()
}

/// Whether a node has a post at this place or behind it.
fn posts_from(posts: &[Post], place: usize, sender: u16) -> bool
    ensures { result ≡ list_any (λ p. p.sender == sender) (drop place posts.now) }
{
    posts.iter().skip(place).any(|post| post.sender == sender)
}

/// Whether a hostile node has a post left.
pub fn has_post(given: &Given, places: &[usize], sender: u16) -> bool
    ensures { result ≡ has_post given.now.program places.now sender }
{
    let place = places.get(usize::from(sender)).copied().unwrap_or(0);
    posts_from(posts(given), place, sender)
}

/// Whether no message waits for a node.
fn has_heard_all(given: &Given, queues: &Queues, number: u16) -> bool
    requires { queues.now.nodes ≡ 64 }
    ensures { result ≡ none_wait_in given.now queues.now number }
{
    (0..64u16)
        .filter(|sender| is_node(given.rights(), *sender))
        .all(|sender| !waits(queues, sender, number))
}

/// Whether a node has no post left, and has failed for good, or is up, doesn't evaluate, and has heard
/// all that was sent to it.
fn is_settled<J: Journal>(
    given: &Given,
    nodes: &[Option<Node<J>>],
    queues: &Queues,
    places: &[usize],
    number: u16,
) -> bool
    requires { queues.now.nodes ≡ 64 }
    ensures { result ≡ settles_in given.now queues.now places.now number (slot nodes.now number) }
{
    match node_at(nodes, usize::from(number)) {
        Some(node) => {
            node.has_failed()
                || node.is_up() && !evaluates(node.role()) && has_heard_all(given, queues, number)
        }
        None => !has_post(given, places, number),
    }
}

/// Whether each node is settled.
pub fn all_settled<J: Journal>(
    given: &Given,
    nodes: &[Option<Node<J>>],
    queues: &Queues,
    places: &[usize],
) -> bool
    requires { queues.now.nodes ≡ 64 }
    ensures { result ≡ all_settled_in given.now nodes.now queues.now places.now }
{
    (0..64u16)
        .filter(|number| is_node(given.rights(), *number))
        .all(|number| is_settled(given, nodes, queues, places, number))
}
