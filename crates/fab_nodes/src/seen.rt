//! What is read of nodes, by number.

ghost use Rattle.std.specs.Prelude.{◌≡◌};
ghost use Rattle.std.specs.Option.{option_copied};
ghost use Rattle.fab_nodes.specs.Slots.{slot};
ghost use Rattle.fab_nodes.specs.Seen.{begins_as, evaluates_as, is_up_and, lacks_as, recovers_in};
ghost use Rattle.fab_nodes.specs.Transit.{is_up_in};

use fab_device::Journal;
use fab_node::{Node, Role};
use fab_worker::WorkerState;

/// The honest node of this number.
pub fn node_at<J: Journal>(nodes: &[Option<Node<J>>], number: usize) -> Option<&Node<J>>
    ensures { option_copied result ≡ slot nodes.now number }
{
    nodes.get(number)?.as_ref()
}

/// Whether an honest node is up. Where there is no node in code, none is.
pub fn is_up<J: Journal>(nodes: &[Option<Node<J>>], number: u16) -> bool
    ensures { result ≡ is_up_in (slot nodes.now number) }
{
    match node_at(nodes, usize::from(number)) {
        Some(node) => node.is_up(),
        None => false,
    }
}

/// Whether a worker is idle and has a request left.
fn begins(role: &Role) -> bool
    ensures { result ≡ begins_as role.now }
{
    match role {
        Role::Worker(worker) => match worker.state() {
            WorkerState::Idle => worker.request().is_some(),
            _ => false,
        },
        Role::Store(_) => false,
    }
}

/// Whether a worker evaluates.
pub(crate) fn evaluates(role: &Role) -> bool
    ensures { result ≡ evaluates_as role.now }
{
    match role {
        Role::Worker(worker) => matches!(worker.state(), WorkerState::Evaluating),
        Role::Store(_) => false,
    }
}

/// Whether a worker waits for this store.
fn lacks(role: &Role, store: u16) -> bool
    ensures { result ≡ lacks_as store role.now }
{
    match role {
        Role::Worker(worker) => worker.awaits(store),
        Role::Store(_) => false,
    }
}

/// Whether a worker may begin an attempt.
pub fn may_begin<J: Journal>(nodes: &[Option<Node<J>>], worker: u16) -> bool
    ensures { result ≡ is_up_and begins_as (slot nodes.now worker) }
{
    match node_at(nodes, usize::from(worker)) {
        Some(node) => node.is_up() && begins(node.role()),
        None => false,
    }
}

/// Whether a worker that is up evaluates.
pub fn may_resume<J: Journal>(nodes: &[Option<Node<J>>], worker: u16) -> bool
    ensures { result ≡ is_up_and evaluates_as (slot nodes.now worker) }
{
    match node_at(nodes, usize::from(worker)) {
        Some(node) => node.is_up() && evaluates(node.role()),
        None => false,
    }
}

/// Whether a worker that is up waits for this store.
pub fn waits_for<J: Journal>(nodes: &[Option<Node<J>>], worker: u16, store: u16) -> bool
    ensures { result ≡ is_up_and (lacks_as store) (slot nodes.now worker) }
{
    match node_at(nodes, usize::from(worker)) {
        Some(node) => node.is_up() && lacks(node.role(), store),
        None => false,
    }
}

/// Whether a node is down and hasn't failed for good.
pub fn may_recover<J: Journal>(nodes: &[Option<Node<J>>], number: u16) -> bool
    ensures { result ≡ recovers_in (slot nodes.now number) }
{
    match node_at(nodes, usize::from(number)) {
        Some(node) => !node.is_up() && !node.has_failed(),
        None => false,
    }
}
