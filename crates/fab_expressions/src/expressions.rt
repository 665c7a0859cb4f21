//! Expressions by levels: chains, comparisons, signs and primaries.
ghost use Rattle.std.specs.Prelude.{◌≡◌, ◌↔◌, IsTrue, MatchResult};
ghost use Rattle.fab_tree.specs.Expressions.{IsExpression, IsArguments, IsChain, IsOthers, IsOperand, IsCompared, IsUnary, IsPrimary, placed as placed_tree};
ghost use Rattle.fab_reading.specs.Reading.{Read, Stops, Starts, Lacks, begins_name, begins_numeral};
ghost use Rattle.fab_expressions.specs.Pieces.{begins_primary, begins_expression, after_primary, after_compared, after_operand, after_chain, after_expression, after_arguments};

use crate::operators::{
    chain_of, comparison, comparison_of, least_behind, operator, unary_operator,
};
use fab_base::{Boxed, Kind, Mark, Seq, Token};
use fab_reading::{
    Item, Refusal, added, behind, fitted, name, next, number, open, place, separated, sign,
    starts_name,
};
use fab_tree::{Expression, Form, Level, Operand};
use std::alloc::Global;

/// The expression with this place as its own.
fn placed(expression: Expression, at: u32) -> Expression
    ensures { result ≡ placed_tree at expression }
{
    let mut expression = expression;
    expression.at = at;
    expression
}

/// A local, or a field of an object.
fn variable(alloc: Global, tokens: &[Token], room: u8) -> Result<(Expression, &[Token]), Refusal>
    requires { Starts begins_name tokens.now }
    ensures { MatchResult result (λ x. Read IsPrimary after_primary room tokens.now x.0 x.1.now) (λ e. Stops IsPrimary after_primary room tokens.now e) }
{
    let (object, rest) = name(alloc, tokens, room)?;
    let at = object.at;
    match behind(rest, Mark::Dot) {
        Some(rest) => {
            let (field, rest) = name(alloc, rest, room)?;
            let form = Form::Read { object, field };
            Ok((Expression { form, at }, rest))
        }
        None => {
            let form = Form::Local(object);
            Ok((Expression { form, at }, rest))
        }
    }
}

/// An expression in brackets.
#[cycle(expression)]
fn brackets(alloc: Global, tokens: &[Token], room: u8) -> Result<(Expression, &[Token]), Refusal>
    requires number { Starts begins_numeral tokens.now → ⊥ }
    requires named { Starts begins_name tokens.now → ⊥ }
    requires null { Lacks Mark.Null tokens.now }
    ensures { MatchResult result (λ x. Read IsPrimary after_primary room tokens.now x.0 x.1.now) (λ e. Stops IsPrimary after_primary room tokens.now e) }
{
    let at = place(tokens);
    let (rest, inner) = open(tokens, Mark::LeftParen, room)?;
    let (inside, rest) = expression(alloc, rest, inner)?;
    let rest = sign(rest, Mark::RightParen)?;
    Ok((placed(inside, at), rest))
}

/// A number, `null`, a local, a field, or an expression in brackets.
#[cycle(expression)]
fn primary(alloc: Global, tokens: &[Token], room: u8) -> Result<(Expression, &[Token]), Refusal>
    ensures { MatchResult result (λ x. Read IsPrimary after_primary room tokens.now x.0 x.1.now) (λ e. Stops IsPrimary after_primary room tokens.now e) }
{
    let at = place(tokens);
    if let Some((number, rest)) = number(tokens) {
        let form = Form::Number(number);
        return Ok((Expression { form, at }, rest));
    }
    if let Some(rest) = behind(tokens, Mark::Null) {
        let form = Form::Null;
        return Ok((Expression { form, at }, rest));
    }
    if starts_name(tokens) {
        variable(alloc, tokens, room)
    } else {
        brackets(alloc, tokens, room)
    }
}

/// A primary, or one behind a sign.
#[cycle(expression)]
fn unary(alloc: Global, tokens: &[Token], room: u8) -> Result<(Expression, &[Token]), Refusal>
    ensures { MatchResult result (λ x. Read IsUnary after_primary room tokens.now x.0 x.1.now) (λ e. Stops IsUnary after_primary room tokens.now e) }
{
    let at = place(tokens);
    match unary_operator(tokens) {
        None => {
            let (operand, rest) = primary(alloc, tokens, room)?;
            Ok((operand, rest))
        }
        Some((operator, rest)) => {
            if let Some((number, rest)) = least_behind(operator, rest) {
                let form = Form::Number(number);
                return Ok((Expression { form, at }, rest));
            }
            let (operand, rest) = primary(alloc, rest, room)?;
            let operand = Boxed::make(alloc, operand)?;
            let form = Form::Unary { operator, operand };
            Ok((Expression { form, at }, rest))
        }
    }
}

/// What may be compared, or the comparison of two such values.
#[cycle(expression)]
fn compared(alloc: Global, tokens: &[Token], room: u8) -> Result<(Expression, &[Token]), Refusal>
    ensures { MatchResult result (λ x. Read IsCompared after_compared room tokens.now x.0 x.1.now) (λ e. Stops IsCompared after_compared room tokens.now e) }
{
    let (left, rest) = chain(alloc, tokens, room, Level::Sum)?;
    match comparison(rest) {
        None => Ok((left, rest)),
        Some((between, rest)) => {
            let (right, rest) = chain(alloc, rest, room, Level::Sum)?;
            let whole = comparison_of(alloc, left, between, right)?;
            Ok((whole, rest))
        }
    }
}

/// What a chain of a level is of.
#[cycle(expression)]
fn operand(
    alloc: Global,
    tokens: &[Token],
    room: u8,
    level: Level,
) -> Result<(Expression, &[Token]), Refusal>
    ensures { MatchResult result (λ x. Read (IsOperand level) (after_operand level) room tokens.now x.0 x.1.now) (λ e. Stops (IsOperand level) (after_operand level) room tokens.now e) }
{
    match level {
        Level::Or => chain(alloc, tokens, room, Level::And),
        Level::And => compared(alloc, tokens, room),
        Level::Sum => chain(alloc, tokens, room, Level::Product),
        Level::Product => unary(alloc, tokens, room),
    }
}

/// The operands of a chain behind the first, with the operators before them.
#[cycle(expression)]
fn others(
    alloc: Global,
    tokens: &[Token],
    room: u8,
    level: Level,
) -> Result<(Seq<Operand>, &[Token]), Refusal>
    ensures { MatchResult result (λ x. Read (IsOthers level) (after_chain level) room tokens.now x.0 x.1.now) (λ e. Stops (IsOthers level) (after_chain level) room tokens.now e) }
{
    let mut found = Seq::new(alloc);
    let mut rest = tokens;
    'list: while let Some((before, after)) = operator(rest, level) {
        let at = place(rest);
        let (value, after) = operand(alloc, after, room, level)?;
        let other = Operand {
            operator: before,
            at,
            operand: value,
        };
        found = added(found, other)?;
        rest = after;
    }
    Ok((fitted(found), rest))
}

/// Operands with operators of a level between them.
#[cycle(expression)]
fn chain(
    alloc: Global,
    tokens: &[Token],
    room: u8,
    level: Level,
) -> Result<(Expression, &[Token]), Refusal>
    ensures { MatchResult result (λ x. Read (IsChain level) (after_chain level) room tokens.now x.0 x.1.now) (λ e. Stops (IsChain level) (after_chain level) room tokens.now e) }
{
    let (first, rest) = operand(alloc, tokens, room, level)?;
    let (behind, rest) = others(alloc, rest, room, level)?;
    let whole = chain_of(alloc, first, behind)?;
    Ok((whole, rest))
}

/// An expression.
#[cycle(expression)]
pub fn expression(
    alloc: Global,
    tokens: &[Token],
    room: u8,
) -> Result<(Expression, &[Token]), Refusal>
    ensures { MatchResult result (λ x. Read IsExpression after_expression room tokens.now x.0 x.1.now) (λ e. Stops IsExpression after_expression room tokens.now e) }
{
    chain(alloc, tokens, room, Level::Or)
}

/// Whether a primary comes next.
fn starts_primary(tokens: &[Token]) -> bool
    ensures { IsTrue result ↔ Starts begins_primary tokens.now }
{
    match next(tokens) {
        None => false,
        Some((token, _)) => match token.kind {
            Kind::Number(number) => number < 2_147_483_648,
            Kind::Name(_) => true,
            Kind::Fixed(Mark::Null | Mark::LeftParen) => true,
            _ => false,
        },
    }
}

/// Whether an expression comes next.
pub fn starts_expression(tokens: &[Token]) -> bool
    ensures { IsTrue result ↔ Starts begins_expression tokens.now }
{
    if starts_primary(tokens) {
        return true;
    }
    match unary_operator(tokens) {
        None => false,
        Some(_) => true,
    }
}

/// An expression in a list with commas.
struct ArgumentItem;

impl Item for ArgumentItem {
    ghost use Rattle.std.specs.Prelude.{refl};
    ghost use Rattle.fab_base.specs.declared.token.Mark.TheVariants.{Comma};
    ghost use Rattle.fab_tree.specs.Expressions.{IsExpression};
    ghost use Rattle.fab_reading.specs.Reading.{is_comma};
    ghost use Rattle.fab_expressions.specs.Pieces.{begins_expression, after_expression};
    ghost use Rattle.fab_expressions.specs.Firsts.{expression_begins};

    type Tree = Expression;

    ghost reads = { IsExpression };

    ghost first = { begins_expression };

    ghost may = { after_expression };

    ghost between = { Comma };

    ghost parts = { is_comma };

    fn mark() -> Mark {
        Mark::Comma
    }

    fn starts(tokens: &[Token]) -> bool {
        starts_expression(tokens)
    }

    fn read(alloc: Global, tokens: &[Token], room: u8) -> Result<(Expression, &[Token]), Refusal> {
        expression(alloc, tokens, room)
    }

    ghost begins = { expression_begins };

    ghost level = { λ room. refl };

    ghost is_part = { refl };

    ghost follows = { refl };
}

/// Expressions with commas between them.
pub fn arguments(
    alloc: Global,
    tokens: &[Token],
    room: u8,
) -> Result<(Seq<Expression>, &[Token]), Refusal>
    ensures { MatchResult result (λ x. Read IsArguments after_arguments room tokens.now x.0 x.1.now) (λ e. Stops IsArguments after_arguments room tokens.now e) }
{
    separated::<ArgumentItem>(alloc, tokens, room)
}
