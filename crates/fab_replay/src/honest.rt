//! The nodes that run code here: those that aren't hostile.

ghost use Rattle.std.specs.Prelude.{◌≡◌, IfOk};
ghost use Rattle.fab_language.specs.Names.{is_hostile as is_hostile_role};
ghost use Rattle.fab_settings.specs.Settings.{is_hostile_node};
ghost use Rattle.fab_core.specs.Cores.{is_honest};
ghost use Rattle.fab_core.specs.Starts.{given_by};
ghost use Rattle.fab_core.specs.Honest.{honest_in};

use fab_base::{NoMemory, Seq};
use fab_places::principal_of;
use fab_rights::Rights;
use fab_tree::Role;
use fab_tree::resolved::Resolved;
use std::alloc::Global;

/// Whether a role was declared hostile.
fn is_hostile_role(role: Role) -> bool
    ensures { result ≡ is_hostile_role role }
{
    match role {
        Role::Principal => false,
        Role::Worker { hostile } | Role::Store { hostile } => hostile,
    }
}

/// Whether the node of this number was.
fn is_hostile(program: &Resolved, number: u16) -> bool
    ensures { result ≡ is_hostile_node program.now number }
{
    match program.nodes.as_slice().get(principal_of(program, number)) {
        Some(principal) => is_hostile_role(principal.role),
        None => false,
    }
}

/// Whether there is a node of this number that isn't hostile.
fn is_honest(program: &Resolved, rights: &Rights, number: u16) -> bool
    ensures { result ≡ is_honest (given_by program.now rights.now) number }
{
    (rights.is_worker(number) || rights.is_store(number)) && !is_hostile(program, number)
}

/// The nodes that aren't hostile, in order.
pub fn honest_nodes(
    alloc: Global,
    program: &Resolved,
    rights: &Rights,
) -> Result<Seq<u16>, NoMemory>
    ensures { IfOk result (λ nodes. nodes ≡ honest_in (given_by program.now rights.now)) }
{
    let mut nodes = Seq::new(alloc);
    for number in 0..64_u16 {
        if is_honest(program, rights, number) {
            nodes.push(number)?;
        }
    }
    Ok(nodes)
}
