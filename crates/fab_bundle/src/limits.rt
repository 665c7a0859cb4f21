//! The limits on the counts of a bundle.
//!
//! A count may be more than a number holds. So the long ones take from a room, which is the limit at
//! first, and answer what is left of it, or none where it doesn't suffice.
ghost use Rattle.std.specs.Prelude.{◌≡◌, ◌<◌, ◌↔◌, IsTrue, count_by, find, length, map, sum_by};
ghost use Rattle.fab_tree.specs.Limits.{is_node, locals_of, limit_of, greatest, first_passed, passes};

use crate::locals::room_after_locals_of_method;
use crate::sites::room_after_sites_of_methods;
use fab_base::What;
use fab_tree::{Class, Method, Node, Role, Session, Start};

/// The first limit that a bundle passes.
pub fn first_passed(start: &Start) -> Option<What>
    ensures { result ≡ first_passed start.now }
{
    let order = [
        What::Principals,
        What::Nodes,
        What::Labels,
        What::Classes,
        What::Fields,
        What::Methods,
        What::Parameters,
        What::Locals,
        What::Sites,
        What::Roots,
        What::Requests,
        What::Posts,
        What::Crashes,
        What::Events,
        What::Cache,
    ];
    first_of(start, &order)
}

/// The first of these limits that a bundle passes.
fn first_of(start: &Start, order: &[What]) -> Option<What>
    ensures { result ≡ find (passes start.now) order.now }
{
    for what in order {
        if passes(start, *what) {
            return Some(*what);
        }
    }
    None
}

/// Whether a bundle has too many of these.
fn passes(start: &Start, what: What) -> bool
    ensures { result ≡ passes start.now what }
{
    let limit = limit_of(what);
    let program = &start.program;
    match what {
        What::Bytes | What::Depth => false,
        What::Principals => limit < program.nodes.len(),
        What::Nodes => limit < nodes(program.nodes.as_slice()),
        What::Labels => limit < program.labels.len(),
        What::Classes => limit < program.classes.len(),
        What::Fields => has_more_fields(program.classes.as_slice(), limit),
        What::Methods => limit < program.methods.len(),
        What::Parameters => has_more_parameters(program.methods.as_slice(), limit),
        What::Locals => has_more_locals(program.methods.as_slice(), limit),
        What::Sites => room_after_sites_of_methods(limit, program.methods.as_slice()).is_none(),
        What::Roots => limit < start.roots.len(),
        What::Requests => has_more_requests(start.sessions.as_slice(), limit),
        What::Posts => limit < start.posts.len(),
        What::Crashes => limit < start.crashes.len(),
        What::Events => limit < start.schedule.len(),
        What::Cache => limit < start.cache as usize,
    }
}

/// How many of these a bundle may have.
fn limit_of(what: What) -> usize
    ensures { result ≡ limit_of what }
{
    match what {
        What::Bytes => 4_194_304,
        What::Nodes => 32,
        What::Fields | What::Parameters => 16,
        What::Depth | What::Principals | What::Labels | What::Classes => 64,
        What::Methods | What::Locals => 256,
        What::Sites => 65_000,
        What::Roots | What::Requests | What::Events => 100_000,
        What::Posts => 10_000,
        What::Crashes => 1_000,
        What::Cache => 4_096,
    }
}

/// How many workers and stores there are.
fn nodes(nodes: &[Node]) -> usize
    ensures { result ≡ count_by (λ n. is_node n.role) nodes.now }
{
    nodes
        .iter()
        .filter(|node| !matches!(node.role, Role::Principal))
        .count()
}

/// Whether some class has more fields.
fn has_more_fields(classes: &[Class], limit: usize) -> bool
    ensures { IsTrue result ↔ limit < greatest (map (λ c. length c.fields) classes.now) }
{
    for class in classes {
        if limit < class.fields.len() {
            return true;
        }
    }
    false
}

/// Whether some method has more parameters.
fn has_more_parameters(methods: &[Method], limit: usize) -> bool
    ensures { IsTrue result ↔ limit < greatest (map (λ m. length m.parameters) methods.now) }
{
    for method in methods {
        if limit < method.parameters.len() {
            return true;
        }
    }
    false
}

/// Whether some method has more locals.
fn has_more_locals(methods: &[Method], limit: usize) -> bool
    ensures { IsTrue result ↔ limit < greatest (map (λ m. length (locals_of m)) methods.now) }
{
    for method in methods {
        if room_after_locals_of_method(limit, method).is_none() {
            return true;
        }
    }
    false
}

/// Whether all sessions together have more requests.
fn has_more_requests(sessions: &[Session], limit: usize) -> bool
    ensures { IsTrue result ↔ limit < sum_by (λ y. length y.requests) sessions.now }
{
    let mut left = limit;
    for session in sessions {
        match left.checked_sub(session.requests.len()) {
            Some(room) => left = room,
            None => return true,
        }
    }
    false
}
