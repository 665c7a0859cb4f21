//! Principals, workers and stores.
ghost use Rattle.std.specs.Prelude.{◌≡◌, ◌↔◌, IsTrue, MatchResult};
ghost use Rattle.fab_tree.specs.Declarations.{IsMachine, IsRole, IsNode};
ghost use Rattle.fab_reading.specs.Reading.{Read, Stops, Starts, BeginsWith, Lacks, any, begins_node};

use fab_base::{Kind, Mark, Token};
use fab_reading::{Refusal, Rule, behind, name, next, sign};
use fab_tree::{Node, Role};
use std::alloc::Global;

/// Whether a principal, a worker or a store comes next.
fn starts_node(tokens: &[Token]) -> bool
    ensures { IsTrue result ↔ Starts begins_node tokens.now }
{
    match next(tokens) {
        None => false,
        Some((token, _)) => matches!(
            token.kind,
            Kind::Fixed(Mark::Principal | Mark::Worker | Mark::Store | Mark::Hostile)
        ),
    }
}

/// A worker or a store.
fn machine(tokens: &[Token], hostile: bool, room: u8) -> Result<(Role, &[Token]), Refusal>
    ensures { MatchResult result (λ x. Read (IsMachine hostile) any room tokens.now x.0 x.1.now) (λ e. Stops (IsMachine hostile) any room tokens.now e) }
{
    match behind(tokens, Mark::Worker) {
        Some(rest) => Ok((Role::Worker { hostile }, rest)),
        None => {
            let rest = sign(tokens, Mark::Store)?;
            Ok((Role::Store { hostile }, rest))
        }
    }
}

/// What a principal is.
fn role(tokens: &[Token], room: u8) -> Result<(Role, &[Token]), Refusal>
    ensures { MatchResult result (λ x. Read IsRole any room tokens.now x.0 x.1.now) (λ e. Stops IsRole any room tokens.now e) }
{
    if let Some(rest) = behind(tokens, Mark::Principal) {
        return Ok((Role::Principal, rest));
    }
    match behind(tokens, Mark::Hostile) {
        Some(rest) => {
            let (role, rest) = machine(rest, true, room)?;
            Ok((role, rest))
        }
        None => {
            let (role, rest) = machine(tokens, false, room)?;
            Ok((role, rest))
        }
    }
}

/// A role, a name and a semicolon.
fn node(alloc: Global, tokens: &[Token], room: u8) -> Result<(Node, &[Token]), Refusal>
    ensures { MatchResult result (λ x. Read IsNode any room tokens.now x.0 x.1.now) (λ e. Stops IsNode any room tokens.now e) }
{
    let (role, rest) = role(tokens, room)?;
    let (name, rest) = name(alloc, rest, room)?;
    let rest = sign(rest, Mark::Semicolon)?;
    Ok((Node { role, name }, rest))
}

/// The rule of one principal, worker or store.
pub struct NodeRule;

impl Rule for NodeRule {
    ghost use Rattle.std.specs.Prelude.{refl};
    ghost use Rattle.fab_tree.specs.Declarations.{IsNode};
    ghost use Rattle.fab_reading.specs.Reading.{any, begins_node};
    ghost use Rattle.fab_parser.specs.Firsts.{node_begins};

    type Tree = Node;

    ghost reads = { IsNode };

    ghost first = { begins_node };

    ghost may = { any };

    fn starts(tokens: &[Token]) -> bool {
        starts_node(tokens)
    }

    fn read(alloc: Global, tokens: &[Token], room: u8) -> Result<(Node, &[Token]), Refusal> {
        node(alloc, tokens, room)
    }

    ghost begins = { node_begins };

    ghost meets = { λ kind first. refl };
}
