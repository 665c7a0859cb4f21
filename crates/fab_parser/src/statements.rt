//! Statements and blocks.
ghost use Rattle.std.specs.Prelude.{◌≡◌, ◌↔◌, IsTrue, MatchResult};
ghost use Rattle.fab_tree.specs.Lists.{Repeated};
ghost use Rattle.fab_tree.specs.Statements.{IsStatement, IsBlock, IsOtherwise};
ghost use Rattle.fab_reading.specs.Reading.{Read, Stops, Starts, any, begins_name};
ghost use Rattle.fab_parser.specs.Pieces.{IsValue, IsDeclared, IsAssigned, IsWritten, IsRequested, IsChoice, IsLoop, IsAttempt, IsFailure, begins_statement, after_statement, behind_statements};

use crate::rights::{condition, given, right};
use fab_base::{Kind, Mark, Seq, Token, Width};
use fab_expressions::expression;
use fab_reading::{Refusal, added, behind, fitted, name, next, open, place, sign, starts_name};
use fab_tree::{Expression, Name, Sort, Statement};
use std::alloc::Global;

/// An expression and a semicolon.
pub fn value(alloc: Global, tokens: &[Token], room: u8) -> Result<(Expression, &[Token]), Refusal>
    ensures { MatchResult result (λ x. Read IsValue any room tokens.now x.0 x.1.now) (λ e. Stops IsValue any room tokens.now e) }
{
    let (inside, rest) = expression(alloc, tokens, room)?;
    let rest = sign(rest, Mark::Semicolon)?;
    Ok((inside, rest))
}

/// A declaration, behind its type: the name, its label and its value.
fn declared(
    alloc: Global,
    tokens: &[Token],
    room: u8,
    sort: Sort,
    at: u32,
) -> Result<(Statement, &[Token]), Refusal>
    ensures { MatchResult result (λ x. Read (IsDeclared sort at) any room tokens.now x.0 x.1.now) (λ e. Stops (IsDeclared sort at) any room tokens.now e) }
{
    let (local, rest) = name(alloc, tokens, room)?;
    let rest = sign(rest, Mark::Colon)?;
    let (label, rest) = name(alloc, rest, room)?;
    let rest = sign(rest, Mark::Equal)?;
    let (value, rest) = value(alloc, rest, room)?;
    let statement = Statement::Declare {
        sort,
        name: local,
        label,
        value,
        at,
    };
    Ok((statement, rest))
}

/// An assignment to a local, behind its name and `=`.
fn assigned(
    alloc: Global,
    tokens: &[Token],
    room: u8,
    name: Name,
) -> Result<(Statement, &[Token]), Refusal>
    ensures { MatchResult result (λ x. Read (IsAssigned name) any room tokens.now x.0 x.1.now) (λ e. Stops (IsAssigned name) any room tokens.now e) }
{
    let (right, rest) = right(alloc, tokens, room)?;
    let rest = sign(rest, Mark::Semicolon)?;
    Ok((Statement::Assign { name, right }, rest))
}

/// A write of a field, behind the name of its object and the dot.
fn written(
    alloc: Global,
    tokens: &[Token],
    room: u8,
    object: Name,
) -> Result<(Statement, &[Token]), Refusal>
    ensures { MatchResult result (λ x. Read (IsWritten object) any room tokens.now x.0 x.1.now) (λ e. Stops (IsWritten object) any room tokens.now e) }
{
    let (field, rest) = name(alloc, tokens, room)?;
    let rest = sign(rest, Mark::Equal)?;
    let (value, rest) = value(alloc, rest, room)?;
    let statement = Statement::Write {
        object,
        field,
        value,
    };
    Ok((statement, rest))
}

/// A call for what it does, behind the name of its method.
fn requested(
    alloc: Global,
    tokens: &[Token],
    room: u8,
    method: Name,
) -> Result<(Statement, &[Token]), Refusal>
    ensures { MatchResult result (λ x. Read (IsRequested method) any room tokens.now x.0 x.1.now) (λ e. Stops (IsRequested method) any room tokens.now e) }
{
    let (arguments, rest) = given(alloc, tokens, room)?;
    let rest = sign(rest, Mark::Semicolon)?;
    Ok((Statement::Call { method, arguments }, rest))
}

/// A statement that begins with a name: what follows the name tells which.
fn named(alloc: Global, tokens: &[Token], room: u8) -> Result<(Statement, &[Token]), Refusal>
    requires { Starts begins_name tokens.now }
    ensures { MatchResult result (λ x. Read IsStatement after_statement room tokens.now x.0 x.1.now) (λ e. Stops IsStatement after_statement room tokens.now e) }
{
    let (first, rest) = name(alloc, tokens, room)?;
    if let Some(rest) = behind(rest, Mark::Equal) {
        return assigned(alloc, rest, room, first);
    }
    if let Some(rest) = behind(rest, Mark::Dot) {
        return written(alloc, rest, room, first);
    }
    if let Some(_) = behind(rest, Mark::LeftParen) {
        return requested(alloc, rest, room, first);
    }
    let at = first.at;
    declared(alloc, rest, room, Sort::Class(first), at)
}

/// A failure, behind its word.
fn failure(tokens: &[Token], room: u8, at: u32) -> Result<(Statement, &[Token]), Refusal>
    ensures { MatchResult result (λ x. Read (IsFailure at) any room tokens.now x.0 x.1.now) (λ e. Stops (IsFailure at) any room tokens.now e) }
{
    let rest = sign(tokens, Mark::Semicolon)?;
    Ok((Statement::Fail { at }, rest))
}

/// Whether a statement comes next.
fn starts_statement(tokens: &[Token]) -> bool
    ensures { IsTrue result ↔ Starts begins_statement tokens.now }
{
    match next(tokens) {
        None => false,
        Some((token, _)) => matches!(
            token.kind,
            Kind::Name(_)
                | Kind::Fixed(Mark::Int | Mark::If | Mark::While | Mark::Atomic | Mark::Fail)
        ),
    }
}

/// A statement.
#[cycle(statement)]
fn statement(alloc: Global, tokens: &[Token], room: u8) -> Result<(Statement, &[Token]), Refusal>
    ensures { MatchResult result (λ x. Read IsStatement after_statement room tokens.now x.0 x.1.now) (λ e. Stops IsStatement after_statement room tokens.now e) }
{
    let at = place(tokens);
    if starts_name(tokens) {
        return named(alloc, tokens, room);
    }
    if let Some(rest) = behind(tokens, Mark::Int) {
        return declared(alloc, rest, room, Sort::Number(Width::Int), at);
    }
    if let Some(rest) = behind(tokens, Mark::If) {
        return choice(alloc, rest, room);
    }
    if let Some(rest) = behind(tokens, Mark::While) {
        return repetition(alloc, rest, room);
    }
    if let Some(rest) = behind(tokens, Mark::Atomic) {
        return attempt(alloc, rest, room, at);
    }
    match behind(tokens, Mark::Fail) {
        Some(rest) => failure(rest, room, at),
        None => Err(Refusal::Syntax { left: tokens.len() }),
    }
}

/// A choice with one block or two, behind `if`.
#[cycle(statement)]
fn choice(alloc: Global, tokens: &[Token], room: u8) -> Result<(Statement, &[Token]), Refusal>
    ensures { MatchResult result (λ x. Read IsChoice after_statement room tokens.now x.0 x.1.now) (λ e. Stops IsChoice after_statement room tokens.now e) }
{
    let (condition, rest) = condition(alloc, tokens, room)?;
    let (first, rest) = block(alloc, rest, room)?;
    let (second, rest) = otherwise(alloc, rest, room)?;
    let statement = Statement::If {
        condition,
        block: first,
        otherwise: second,
    };
    Ok((statement, rest))
}

/// The block behind `else`, if there is one.
#[cycle(statement)]
fn otherwise(
    alloc: Global,
    tokens: &[Token],
    room: u8,
) -> Result<(Option<Seq<Statement>>, &[Token]), Refusal>
    ensures { MatchResult result (λ x. Read IsOtherwise after_statement room tokens.now x.0 x.1.now) (λ e. Stops IsOtherwise after_statement room tokens.now e) }
{
    match behind(tokens, Mark::Else) {
        None => Ok((None, tokens)),
        Some(rest) => {
            let (second, rest) = block(alloc, rest, room)?;
            Ok((Some(second), rest))
        }
    }
}

/// A loop, behind `while`.
#[cycle(statement)]
fn repetition(alloc: Global, tokens: &[Token], room: u8) -> Result<(Statement, &[Token]), Refusal>
    ensures { MatchResult result (λ x. Read IsLoop any room tokens.now x.0 x.1.now) (λ e. Stops IsLoop any room tokens.now e) }
{
    let (condition, rest) = condition(alloc, tokens, room)?;
    let (inside, rest) = block(alloc, rest, room)?;
    let statement = Statement::While {
        condition,
        block: inside,
    };
    Ok((statement, rest))
}

/// A transaction and what happens where it fails, behind `atomic`.
#[cycle(statement)]
fn attempt(
    alloc: Global,
    tokens: &[Token],
    room: u8,
    at: u32,
) -> Result<(Statement, &[Token]), Refusal>
    ensures { MatchResult result (λ x. Read (IsAttempt at) any room tokens.now x.0 x.1.now) (λ e. Stops (IsAttempt at) any room tokens.now e) }
{
    let (label, rest) = name(alloc, tokens, room)?;
    let (first, rest) = block(alloc, rest, room)?;
    let rest = sign(rest, Mark::Else)?;
    let (second, rest) = block(alloc, rest, room)?;
    let statement = Statement::Atomic {
        label,
        block: first,
        otherwise: second,
        at,
    };
    Ok((statement, rest))
}

/// Statements in braces.
#[cycle(statement)]
fn block(alloc: Global, tokens: &[Token], room: u8) -> Result<(Seq<Statement>, &[Token]), Refusal>
    ensures { MatchResult result (λ x. Read IsBlock any room tokens.now x.0 x.1.now) (λ e. Stops IsBlock any room tokens.now e) }
{
    let (rest, inner) = open(tokens, Mark::LeftBrace, room)?;
    let (inside, rest) = statements(alloc, rest, inner)?;
    let rest = sign(rest, Mark::RightBrace)?;
    Ok((inside, rest))
}

/// As many statements as come.
#[cycle(statement)]
pub fn statements(
    alloc: Global,
    tokens: &[Token],
    room: u8,
) -> Result<(Seq<Statement>, &[Token]), Refusal>
    ensures { MatchResult result (λ x. Read (Repeated IsStatement) behind_statements room tokens.now x.0 x.1.now) (λ e. Stops (Repeated IsStatement) behind_statements room tokens.now e) }
{
    let mut found = Seq::new(alloc);
    let mut rest = tokens;
    'list: while starts_statement(rest) {
        let (item, after) = statement(alloc, rest, room)?;
        found = added(found, item)?;
        rest = after;
    }
    Ok((fitted(found), rest))
}
