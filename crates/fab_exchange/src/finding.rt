//! Which event of a node is due.
ghost use Rattle.std.specs.Prelude.{◌≡◌};
ghost use Rattle.std.specs.Option.{option_map};
ghost use Rattle.fab_rights.specs.Computed.{nodes_in};
ghost use Rattle.fab_exchange.specs.Dues.{comes, crashes, found_at, is_some_due, line_in, line_of, own_at, poster, posts, posts_to, sender, silent};
ghost use Rattle.fab_exchange.specs.Exchanges.{AreCounts};

use crate::counting::Count;
use crate::events::whole;
use crate::exchange::Exchange;
use crate::found::Found;
use crate::lines::line_at;
use fab_core::Core;
use fab_device::Journal;
use fab_net::{Event, Inner};
use fab_tree::resolved::Crash;

/// Whether an event of a node may come.
fn comes<J: Journal>(core: &Core<J>, inner: Inner) -> bool
    ensures { result ≡ comes core.now.given core.now.moves inner }
{
    core.may_whole(whole(inner))
}

/// Whether a node may post.
fn posts<J: Journal>(core: &Core<J>, sender: u16) -> bool
    ensures { result ≡ posts core.now.given core.now.moves sender }
{
    core.may_whole(Event::Post(sender))
}

/// Whether a node may post, and posts to this node next.
fn posts_to<J: Journal>(core: &Core<J>, sender: u16, receiver: u16) -> bool
    ensures { result ≡ posts_to core.now.given core.now.moves sender receiver }
{
    core.may_post_to(sender, receiver)
}

/// Who of these nodes may deliver to a node.
fn sender<J: Journal>(core: &Core<J>, nodes: &[u16], node: u16) -> Option<u16>
    ensures { result ≡ sender core.now.given core.now.moves node nodes.now }
{
    nodes
        .iter()
        .copied()
        .find(|sender| comes(core, Inner::Deliver(*sender, node)))
}

/// Whom of these nodes a node may give up.
fn silent<J: Journal>(core: &Core<J>, nodes: &[u16], node: u16) -> Option<u16>
    ensures { result ≡ silent core.now.given core.now.moves node nodes.now }
{
    nodes
        .iter()
        .copied()
        .find(|store| comes(core, Inner::Idle(node, *store)))
}

/// Who of these nodes posts to a node next.
fn poster<J: Journal>(core: &Core<J>, nodes: &[u16], node: u16) -> Option<u16>
    ensures { result ≡ poster core.now.given core.now.moves node nodes.now }
{
    nodes
        .iter()
        .copied()
        .find(|sender| posts_to(core, *sender, node))
}

/// The crash line of a node that is used now.
fn line_of<J: Journal>(core: &Core<J>, counts: &[Count], node: u16) -> Option<Crash>
    requires { AreCounts core.now.moves counts.now }
    ensures { option_map line_in result ≡ line_of core.now.given core.now.moves node }
{
    core.is_a_run();
    if !core.may_whole(Event::Crash(node)) {
        return None;
    }
    let count = counts[usize::from(node)];
    let line = line_at(core.start(), node, count.crashes)?;
    if line.after as usize <= count.events {
        Some(*line)
    } else {
        None
    }
}

/// What of all these nodes a node does by itself that is due.
#[tactic(auto, unfolding(crate::specs::Dues::own_at))]
fn own<J: Journal>(core: &Core<J>, nodes: &[u16], must_crash: bool, node: u16) -> Option<Found>
    requires nodes { nodes.now ≡ nodes_in core.now.given.rights }
    requires crashes { must_crash ≡ crashes core.now.given core.now.moves node }
    ensures { result ≡ own_at core.now.given core.now.moves node }
{
    if must_crash {
        return Some(Found::Crash);
    }
    if comes(core, Inner::Recover(node)) {
        return Some(Found::Does(Inner::Recover(node)));
    }
    if let Some(sender) = sender(core, nodes, node) {
        return Some(Found::Does(Inner::Deliver(sender, node)));
    }
    if comes(core, Inner::Begin(node)) {
        return Some(Found::Does(Inner::Begin(node)));
    }
    if comes(core, Inner::Resume(node)) {
        return Some(Found::Evaluation);
    }
    silent(core, nodes, node).map(|store| Found::Does(Inner::Idle(node, store)))
}

/// The post of one of these nodes to a node that comes next.
fn post_to<J: Journal>(core: &Core<J>, nodes: &[u16], node: u16) -> Option<Found>
    ensures { result ≡ option_map (λ h. Found.Post h) (poster core.now.given core.now.moves node nodes.now) }
{
    poster(core, nodes, node).map(|sender| Found::Post(sender))
}

impl<J: Journal> Exchange<J> {
    /// The crash line of a node that is used now.
    pub(crate) fn line_of(&self, node: u16) -> Option<Crash>
        ensures { option_map line_in result ≡ line_of self.now.given self.now.moves node }
    {
        line_of(&self.core, self.counts.as_slice(), node)
    }

    /// Whether the crash of a node is due.
    fn crashes(&self, node: u16) -> bool
        ensures { result ≡ crashes self.now.given self.now.moves node }
    {
        match self.line_of(node) {
            Some(line) => line.keep.is_none(),
            None => false,
        }
    }

    /// What a node does by itself that is due.
    fn own(&self, node: u16) -> Option<Found>
        ensures { result ≡ own_at self.now.given self.now.moves node }
    {
        own(&self.core, self.nodes.as_slice(), self.crashes(node), node)
    }

    /// What is due at a node.
    pub(crate) fn found(&self, node: u16) -> Option<Found>
        ensures { result ≡ found_at self.now.given self.now.moves node }
    {
        match self.own(node) {
            Some(own) => Some(own),
            None => post_to(&self.core, self.nodes.as_slice(), node),
        }
    }

    /// Whether an event of any node is due.
    pub(crate) fn is_some_due(&self) -> bool
        ensures { result ≡ is_some_due self.now.given self.now.moves }
    {
        self.nodes.iter().any(|node| self.own(*node).is_some() || posts(&self.core, *node))
    }
}
