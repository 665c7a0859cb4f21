//! What is assigned to a local, and expressions in brackets.
ghost use Rattle.std.specs.Prelude.{◌≡◌, ◌↔◌, IsTrue, MatchOption, MatchResult};
ghost use Rattle.fab_tree.specs.Expressions.{IsExpression, IsArguments};
ghost use Rattle.fab_tree.specs.Statements.{IsDowngrade, IsRight};
ghost use Rattle.fab_reading.specs.Reading.{Read, Stops, Starts, any};
ghost use Rattle.fab_parser.specs.Pieces.{Bracketed, IsCreated, IsLowered, IsCalled, BeginsCall, begins_downgrade, after_right};

use fab_base::{Mark, Seq, Token};
use fab_expressions::{arguments, expression};
use fab_reading::{Refusal, behind, name, next, open, place, sign, starts_name};
use fab_tree::{Downgrade, Expression, Name, Right};
use std::alloc::Global;

/// An expression in brackets.
pub fn condition(
    alloc: Global,
    tokens: &[Token],
    room: u8,
) -> Result<(Expression, &[Token]), Refusal>
    ensures { MatchResult result (λ x. Read (Bracketed IsExpression) any room tokens.now x.0 x.1.now) (λ e. Stops (Bracketed IsExpression) any room tokens.now e) }
{
    let (rest, inner) = open(tokens, Mark::LeftParen, room)?;
    let (inside, rest) = expression(alloc, rest, inner)?;
    let rest = sign(rest, Mark::RightParen)?;
    Ok((inside, rest))
}

/// The arguments of a call, in brackets.
pub fn given(
    alloc: Global,
    tokens: &[Token],
    room: u8,
) -> Result<(Seq<Expression>, &[Token]), Refusal>
    ensures { MatchResult result (λ x. Read (Bracketed IsArguments) any room tokens.now x.0 x.1.now) (λ e. Stops (Bracketed IsArguments) any room tokens.now e) }
{
    let (rest, inner) = open(tokens, Mark::LeftParen, room)?;
    let (inside, rest) = arguments(alloc, rest, inner)?;
    let rest = sign(rest, Mark::RightParen)?;
    Ok((inside, rest))
}

/// A new object, behind `new`: its class, its store and what its fields begin with.
fn created(alloc: Global, tokens: &[Token], room: u8, at: u32) -> Result<(Right, &[Token]), Refusal>
    ensures { MatchResult result (λ x. Read (IsCreated at) any room tokens.now x.0 x.1.now) (λ e. Stops (IsCreated at) any room tokens.now e) }
{
    let (class, rest) = name(alloc, tokens, room)?;
    let rest = sign(rest, Mark::At)?;
    let (store, rest) = name(alloc, rest, room)?;
    let (arguments, rest) = given(alloc, rest, room)?;
    let right = Right::New {
        class,
        store,
        arguments,
        at,
    };
    Ok((right, rest))
}

/// Which downgrade comes next, if one does, and what is behind its word.
fn downgrade(tokens: &[Token]) -> Option<(Downgrade, &[Token])>
    ensures { MatchOption result (Starts begins_downgrade tokens.now → ⊥) (λ x. IsDowngrade tokens.now x.0 x.1.now) }
{
    if let Some(rest) = behind(tokens, Mark::Declassify) {
        return Some((Downgrade::Declassify, rest));
    }
    match behind(tokens, Mark::Endorse) {
        Some(rest) => Some((Downgrade::Endorse, rest)),
        None => None,
    }
}

/// A value at another label, behind the word that says which: the value and its two labels.
fn lowered(
    alloc: Global,
    tokens: &[Token],
    room: u8,
    downgrade: Downgrade,
    at: u32,
) -> Result<(Right, &[Token]), Refusal>
    ensures { MatchResult result (λ x. Read (IsLowered downgrade at) any room tokens.now x.0 x.1.now) (λ e. Stops (IsLowered downgrade at) any room tokens.now e) }
{
    let (rest, inner) = open(tokens, Mark::LeftParen, room)?;
    let (value, rest) = expression(alloc, rest, inner)?;
    let rest = sign(rest, Mark::Comma)?;
    let (from, rest) = name(alloc, rest, inner)?;
    let rest = sign(rest, Mark::To)?;
    let (to, rest) = name(alloc, rest, inner)?;
    let rest = sign(rest, Mark::RightParen)?;
    let right = Right::Downgrade {
        downgrade,
        value,
        from,
        to,
        at,
    };
    Ok((right, rest))
}

/// A call, behind the name of its method.
fn called(
    alloc: Global,
    tokens: &[Token],
    room: u8,
    method: Name,
) -> Result<(Right, &[Token]), Refusal>
    ensures { MatchResult result (λ x. Read (IsCalled method) any room tokens.now x.0 x.1.now) (λ e. Stops (IsCalled method) any room tokens.now e) }
{
    let (arguments, rest) = given(alloc, tokens, room)?;
    Ok((Right::Call { method, arguments }, rest))
}

/// Whether a name and an opening bracket come next.
fn begins_call(tokens: &[Token]) -> bool
    ensures { IsTrue result ↔ BeginsCall tokens.now }
{
    if !starts_name(tokens) {
        return false;
    }
    match next(tokens) {
        None => false,
        Some((_, rest)) => match behind(rest, Mark::LeftParen) {
            None => false,
            Some(_) => true,
        },
    }
}

/// What is assigned: a new object, a value at another label, the result of a call, or an
/// expression.
pub fn right(alloc: Global, tokens: &[Token], room: u8) -> Result<(Right, &[Token]), Refusal>
    ensures { MatchResult result (λ x. Read IsRight after_right room tokens.now x.0 x.1.now) (λ e. Stops IsRight after_right room tokens.now e) }
{
    let at = place(tokens);
    if let Some(rest) = behind(tokens, Mark::New) {
        return created(alloc, rest, room, at);
    }
    if let Some((downgrade, rest)) = downgrade(tokens) {
        return lowered(alloc, rest, room, downgrade, at);
    }
    if begins_call(tokens) {
        let (method, rest) = name(alloc, tokens, room)?;
        return called(alloc, rest, room, method);
    }
    let (value, rest) = expression(alloc, tokens, room)?;
    Ok((Right::Plain(value), rest))
}
