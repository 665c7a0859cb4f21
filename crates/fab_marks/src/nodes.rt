//! Nodes of a bundle by their names, and the sets of them that words name.
ghost use Rattle.std.specs.Prelude.{◌≡◌, ◌&&◌, is_some, find};
ghost use Rattle.std.specs.List.{list_any};
ghost use Rattle.std.specs.Option.{option_copied};
ghost use Rattle.std.specs.Str.{bytes_eq};
ghost use Rattle.fab_language.specs.Names.{is_hostile as is_hostile_role};
ghost use Rattle.fab_language.specs.Words.{has_number};
ghost use Rattle.fab_marks.specs.Nodes.{are_nodes, is_among, is_node, is_sent_in, node_named, number_of};

use fab_base::Seq;
use fab_tree::Role;
use fab_tree::resolved::{Principal, Resolved};

/// Whether a principal has this name.
fn has_name(principal: &Principal, name: &[u8]) -> bool
    ensures { result ≡ bytes_eq principal.now.name.text name.now }
{
    principal.name.text.as_str().as_bytes() == name
}

/// Whether it has one of these names.
fn has_name_among(principal: &Principal, names: &[Seq<u8>]) -> bool
    ensures { result ≡ list_any (bytes_eq principal.now.name.text) names.now }
{
    names
        .iter()
        .any(|name| has_name(principal, name.as_slice()))
}

/// Whether it is the worker or store of this number.
fn has_number(principal: &Principal, number: u16) -> bool
    ensures { result ≡ has_number number principal.now.node }
{
    match principal.node {
        Some(node) => number == node,
        None => false,
    }
}

/// Whether it was declared hostile.
fn is_hostile(principal: &Principal) -> bool
    ensures { result ≡ is_hostile_role principal.now.role }
{
    match principal.role {
        Role::Worker { hostile } | Role::Store { hostile } => hostile,
        Role::Principal => false,
    }
}

/// The worker or store of a name.
fn node_named<'a>(start: &'a Resolved, name: &[u8]) -> Option<&'a Principal>
    ensures { option_copied result ≡ node_named start.now name.now }
{
    start
        .nodes
        .as_slice()
        .iter()
        .find(|x| x.node.is_some() && has_name(x, name))
}

/// Whether a worker or store has this name.
pub fn is_node(start: &Resolved, name: &[u8]) -> bool
    ensures { result ≡ is_node start.now name.now }
{
    node_named(start, name).is_some()
}

/// The number of the worker or store of this name, 0 where there is none.
pub fn number_of(start: &Resolved, name: &[u8]) -> u16
    ensures { result ≡ number_of start.now name.now }
{
    match node_named(start, name) {
        Some(principal) => principal.node.unwrap_or(0),
        None => 0,
    }
}

/// Whether each of these names is that of a worker or store.
pub fn are_nodes(start: &Resolved, names: &[Seq<u8>]) -> bool
    ensures { result ≡ are_nodes start.now names.now }
{
    names.iter().all(|name| is_node(start, name.as_slice()))
}

/// Whether the node of this number is hostile, or has one of these names.
fn is_among(start: &Resolved, names: &[Seq<u8>], number: u16) -> bool
    ensures { result ≡ is_among start.now names.now number }
{
    start.nodes.as_slice().iter().any(|principal| has_number(principal, number)
        && (is_hostile(principal) || has_name_among(principal, names)))
}

/// Whether what goes from one node to another is sent into the set of these nodes and the hostile ones.
pub(crate) fn is_sent_in(start: &Resolved, names: &[Seq<u8>], from: u16, to: u16) -> bool
    ensures { result ≡ is_sent_in start.now names.now from to }
{
    if names.is_empty() {
        return false;
    }
    is_among(start, names, to) && !is_among(start, names, from)
}
