//! Sets of nodes as masks: bit n of a `u64` stands for node n.
ghost use Rattle.std.specs.Prelude.{◌≡◌, ℕ, ◌<◌, ◌&&◌, true, false, is_some, option_map, unwrap_or, IfSome, MatchOption};
ghost use Rattle.std.specs.List.{list_all, list_any};
ghost use Rattle.std.specs.Str.{bytes_eq};
ghost use Rattle.fab_language.specs.Names.{is_hostile as is_hostile_role};
ghost use Rattle.fab_language.specs.Words.{has_number};
ghost use Rattle.fab_labelling.specs.Placement.{role_of};
ghost use Rattle.fab_rights.specs.Computed.{has_bit};
ghost use Rattle.fab_front.specs.Named.{are_node_names, is_named, is_node_name};

use fab_base::Text;
use fab_places::principal_of;
use fab_tree::Role;
use fab_tree::resolved::{Principal, Resolved};

/// The numbers below 64 that pass the test.
fn mask_of<F: Fn(u16) -> bool>(test: F) -> u64
    requires callable { F.IsAlwaysCallable test }
    ensures { (k : ℕ) → k < 64 → F.post test k (has_bit result k) }
{
    let mut mask = 0;
    for k in 0..64_u16 {
        if test(k) {
            mask |= 1 << k;
        }
    }
    mask
}

/// Whether a principal has this name.
fn has_name(principal: &Principal, name: &Text) -> bool
    ensures { result ≡ bytes_eq principal.now.name.text name.now }
{
    principal.name.text.as_str() == name.as_str()
}

/// Whether it has one of these names.
fn has_name_among(principal: &Principal, names: &[Text]) -> bool
    ensures { result ≡ list_any (bytes_eq principal.now.name.text) names.now }
{
    names.iter().any(|name| has_name(principal, name))
}

/// Whether it is the worker or store of this number.
fn has_number(principal: &Principal, number: u16) -> bool
    ensures { result ≡ has_number number principal.now.node }
{
    match principal.node {
        Some(node) => number == node,
        None => false,
    }
}

/// Whether a worker or store has this name.
fn is_node_name(program: &Resolved, name: &Text) -> bool
    ensures { result ≡ is_node_name program.now name.now }
{
    program.nodes.as_slice().iter().any(|principal| principal.node.is_some()
        && has_name(principal, name))
}

/// Whether the worker or store of this number has one of these names.
fn is_named(program: &Resolved, names: &[Text], number: u16) -> bool
    ensures { result ≡ is_named program.now names.now number }
{
    program.nodes.as_slice().iter().any(|principal| has_number(principal, number)
        && has_name_among(principal, names))
}

/// Whether each name is that of a worker or store.
fn are_node_names(program: &Resolved, names: &[Text]) -> bool
    ensures { result ≡ are_node_names program.now names.now }
{
    names.iter().all(|name| is_node_name(program, name))
}

/// The workers and stores with these names, or none where a name is no worker's and no store's.
pub fn nodes_named(program: &Resolved, names: &[Text]) -> Option<u64>
    ensures names { MatchOption result (are_node_names program.now names.now ≡ false) (λ mask. are_node_names program.now names.now ≡ true) }
    ensures nodes { IfSome result (λ mask. (n : ℕ) → n < 64 → has_bit mask n ≡ is_named program.now names.now n) }
{
    if are_node_names(program, names) {
        Some(mask_of(|number| is_named(program, names, number)))
    } else {
        None
    }
}

/// Whether the node of this number was declared hostile.
fn is_hostile(program: &Resolved, number: u16) -> bool
    ensures { result ≡ unwrap_or (option_map is_hostile_role (role_of program.now number)) false }
{
    match program.nodes.as_slice().get(principal_of(program, number)) {
        Some(principal) => match principal.role {
            Role::Worker { hostile } | Role::Store { hostile } => hostile,
            Role::Principal => false,
        },
        None => false,
    }
}

/// The nodes that were declared hostile.
pub fn hostile_nodes(program: &Resolved) -> u64
    ensures { (n : ℕ) → n < 64 → has_bit result n ≡ unwrap_or (option_map is_hostile_role (role_of program.now n)) false }
{
    mask_of(|number| is_hostile(program, number))
}
