//! Roots.
ghost use Rattle.std.specs.Prelude.{◌↔◌, IsTrue, MatchResult};
ghost use Rattle.fab_tree.specs.Runs.{IsRoot};
ghost use Rattle.fab_reading.specs.Reading.{Read, Stops, Starts, any, begins_root};

use crate::literals::GivenItem;
use fab_base::{Kind, Mark, Token};
use fab_reading::{Refusal, Rule, name, next, open, separated, sign};
use fab_tree::Root;
use std::alloc::Global;

/// Whether a root comes next.
fn starts_root(tokens: &[Token]) -> bool
    ensures { IsTrue result ↔ Starts begins_root tokens.now }
{
    match next(tokens) {
        None => false,
        Some((token, _)) => matches!(token.kind, Kind::Fixed(Mark::Root)),
    }
}

/// `root`, a name, its class, its store and its values.
fn root(alloc: Global, tokens: &[Token], room: u8) -> Result<(Root, &[Token]), Refusal>
    ensures { MatchResult result (λ x. Read IsRoot any room tokens.now x.0 x.1.now) (λ e. Stops IsRoot any room tokens.now e) }
{
    let rest = sign(tokens, Mark::Root)?;
    let (root, rest) = name(alloc, rest, room)?;
    let rest = sign(rest, Mark::Colon)?;
    let (class, rest) = name(alloc, rest, room)?;
    let rest = sign(rest, Mark::At)?;
    let (store, rest) = name(alloc, rest, room)?;
    let (rest, inner) = open(rest, Mark::LeftParen, room)?;
    let (values, rest) = separated::<GivenItem>(alloc, rest, inner)?;
    let rest = sign(rest, Mark::RightParen)?;
    let rest = sign(rest, Mark::Semicolon)?;
    let root = Root {
        name: root,
        class,
        store,
        values,
    };
    Ok((root, rest))
}

/// The rule of one root.
pub(crate) struct RootRule;

impl Rule for RootRule {
    ghost use Rattle.std.specs.Prelude.{refl};
    ghost use Rattle.fab_tree.specs.Runs.{IsRoot};
    ghost use Rattle.fab_reading.specs.Reading.{any, begins_root};
    ghost use Rattle.fab_bundle.specs.Firsts.{root_begins};

    type Tree = Root;

    ghost reads = { IsRoot };

    ghost first = { begins_root };

    ghost may = { any };

    fn starts(tokens: &[Token]) -> bool {
        starts_root(tokens)
    }

    fn read(alloc: Global, tokens: &[Token], room: u8) -> Result<(Root, &[Token]), Refusal> {
        root(alloc, tokens, room)
    }

    ghost begins = { root_begins };

    ghost meets = { λ kind first. refl };
}
