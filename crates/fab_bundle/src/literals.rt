//! Literals: what fields of roots and arguments of requests are given.
ghost use Rattle.std.specs.Prelude.{◌↔◌, IsTrue, MatchResult};
ghost use Rattle.fab_tree.specs.Runs.{IsNegated, IsLiteral, IsGiven};
ghost use Rattle.fab_reading.specs.Reading.{Read, Stops, Starts, any, begins_literal};

use fab_base::{Kind, Mark, Token};
use fab_reading::{Item, Refusal, behind, name, negative, next, number, starts_name};
use fab_tree::{Given, Literal, Number};
use std::alloc::Global;

/// The number behind a minus sign.
fn negated(tokens: &[Token], room: u8) -> Result<(Number, &[Token]), Refusal>
    ensures { MatchResult result (λ x. Read IsNegated any room tokens.now x.0 x.1.now) (λ e. Stops IsNegated any room tokens.now e) }
{
    match negative(tokens) {
        Some((number, rest)) => Ok((number, rest)),
        None => Err(Refusal::Syntax { left: tokens.len() }),
    }
}

/// A number, a negative number, null or the name of a root.
fn literal(alloc: Global, tokens: &[Token], room: u8) -> Result<(Literal, &[Token]), Refusal>
    ensures { MatchResult result (λ x. Read IsLiteral any room tokens.now x.0 x.1.now) (λ e. Stops IsLiteral any room tokens.now e) }
{
    if let Some((number, rest)) = number(tokens) {
        return Ok((Literal::Number(number), rest));
    }
    if let Some(rest) = behind(tokens, Mark::Minus) {
        let (number, rest) = negated(rest, room)?;
        return Ok((Literal::Number(number), rest));
    }
    if let Some(rest) = behind(tokens, Mark::Null) {
        return Ok((Literal::Null, rest));
    }
    if starts_name(tokens) {
        let (root, rest) = name(alloc, tokens, room)?;
        return Ok((Literal::Root(root), rest));
    }
    Err(Refusal::Syntax { left: tokens.len() })
}

/// A literal with its place.
fn given(alloc: Global, tokens: &[Token], room: u8) -> Result<(Given, &[Token]), Refusal>
    ensures { MatchResult result (λ x. Read IsGiven any room tokens.now x.0 x.1.now) (λ e. Stops IsGiven any room tokens.now e) }
{
    match next(tokens) {
        None => Err(Refusal::Syntax { left: 0 }),
        Some((token, _)) => {
            let at = token.at;
            let (literal, rest) = literal(alloc, tokens, room)?;
            Ok((Given { literal, at }, rest))
        }
    }
}

/// Whether a literal comes next.
fn starts_literal(tokens: &[Token]) -> bool
    ensures { IsTrue result ↔ Starts begins_literal tokens.now }
{
    match next(tokens) {
        None => false,
        Some((token, _)) => match token.kind {
            Kind::Number(number) => number < 2_147_483_648,
            Kind::Name(_) | Kind::Fixed(Mark::Minus | Mark::Null) => true,
            _ => false,
        },
    }
}

/// A literal in a list with commas.
pub(crate) struct GivenItem;

impl Item for GivenItem {
    ghost use Rattle.std.specs.Prelude.{refl};
    ghost use Rattle.fab_base.specs.declared.token.Mark.TheVariants.{Comma};
    ghost use Rattle.fab_tree.specs.Runs.{IsGiven};
    ghost use Rattle.fab_reading.specs.Reading.{any, begins_literal, is_comma};
    ghost use Rattle.fab_bundle.specs.Firsts.{given_begins};

    type Tree = Given;

    ghost reads = { IsGiven };

    ghost first = { begins_literal };

    ghost may = { any };

    ghost between = { Comma };

    ghost parts = { is_comma };

    fn mark() -> Mark {
        Mark::Comma
    }

    fn starts(tokens: &[Token]) -> bool {
        starts_literal(tokens)
    }

    fn read(alloc: Global, tokens: &[Token], room: u8) -> Result<(Given, &[Token]), Refusal> {
        given(alloc, tokens, room)
    }

    ghost begins = { given_begins };

    ghost level = { λ room. refl };

    ghost is_part = { refl };

    ghost follows = { refl };
}
