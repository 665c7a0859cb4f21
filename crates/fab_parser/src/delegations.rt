//! Delegations.
ghost use Rattle.std.specs.Prelude.{◌≡◌, MatchResult};
ghost use Rattle.fab_tree.specs.Declarations.{IsDelegation};
ghost use Rattle.fab_reading.specs.Reading.{Read, Stops, any};

use fab_base::{Mark, Token};
use fab_reading::{Refusal, Rule, name, sign, starts_name};
use fab_tree::Delegation;
use std::alloc::Global;

/// A name, `actsfor`, a name and a semicolon.
fn delegation(alloc: Global, tokens: &[Token], room: u8) -> Result<(Delegation, &[Token]), Refusal>
    ensures { MatchResult result (λ x. Read IsDelegation any room tokens.now x.0 x.1.now) (λ e. Stops IsDelegation any room tokens.now e) }
{
    let (actor, rest) = name(alloc, tokens, room)?;
    let rest = sign(rest, Mark::ActsFor)?;
    let (principal, rest) = name(alloc, rest, room)?;
    let rest = sign(rest, Mark::Semicolon)?;
    Ok((Delegation { actor, principal }, rest))
}

/// The rule of one delegation.
pub struct DelegationRule;

impl Rule for DelegationRule {
    ghost use Rattle.std.specs.Prelude.{refl};
    ghost use Rattle.fab_tree.specs.Declarations.{IsDelegation};
    ghost use Rattle.fab_reading.specs.Reading.{any, begins_name};
    ghost use Rattle.fab_parser.specs.Firsts.{delegation_begins};

    type Tree = Delegation;

    ghost reads = { IsDelegation };

    ghost first = { begins_name };

    ghost may = { any };

    fn starts(tokens: &[Token]) -> bool {
        starts_name(tokens)
    }

    fn read(alloc: Global, tokens: &[Token], room: u8) -> Result<(Delegation, &[Token]), Refusal> {
        delegation(alloc, tokens, room)
    }

    ghost begins = { delegation_begins };

    ghost meets = { λ kind first. refl };
}
