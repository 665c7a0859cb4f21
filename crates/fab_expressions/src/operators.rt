//! Operators, comparisons, and the expressions that they make.
ghost use Rattle.std.specs.Prelude.{◌≡◌, IsTrue, MatchOption, IfOk};
ghost use Rattle.fab_tree.specs.Lists.{Is, IsLeast};
ghost use Rattle.fab_tree.specs.Marks.{unary_mark};
ghost use Rattle.fab_tree.specs.Expressions.{IsComparison, IsOperator, expression_at, place_of, chain_of as chain_tree};
ghost use Rattle.fab_reading.specs.Reading.{Starts, begins_least};
ghost use Rattle.fab_expressions.specs.Pieces.{begins_comparison, begins_operator, begins_unary};

use fab_base::{Boxed, Kind, Mark, NoMemory, Seq, Token};
use fab_reading::{behind, least, next};
use fab_tree::{Comparison, Expression, Form, Level, Number, Operand, Operator, UnaryOperator};
use std::alloc::Global;

/// How two values are compared, if a comparison comes next.
pub fn comparison(tokens: &[Token]) -> Option<(Comparison, &[Token])>
    ensures { MatchOption result (Starts begins_comparison tokens.now → ⊥) (λ x. IsComparison tokens.now x.0 x.1.now) }
{
    if let Some(rest) = behind(tokens, Mark::EqualEqual) {
        return Some((Comparison::Equal, rest));
    }
    if let Some(rest) = behind(tokens, Mark::NotEqual) {
        return Some((Comparison::NotEqual, rest));
    }
    if let Some(rest) = behind(tokens, Mark::Less) {
        return Some((Comparison::Less, rest));
    }
    if let Some(rest) = behind(tokens, Mark::LessEqual) {
        return Some((Comparison::LessEqual, rest));
    }
    if let Some(rest) = behind(tokens, Mark::Greater) {
        return Some((Comparison::Greater, rest));
    }
    match behind(tokens, Mark::GreaterEqual) {
        Some(rest) => Some((Comparison::GreaterEqual, rest)),
        None => None,
    }
}

/// An operator of a level, if one comes next.
pub fn operator(tokens: &[Token], level: Level) -> Option<(Operator, &[Token])>
    ensures { MatchOption result (Starts (begins_operator level) tokens.now → ⊥) (λ x. IsOperator level tokens.now x.0 x.1.now) }
{
    match level {
        Level::Or => match behind(tokens, Mark::Bar) {
            Some(rest) => Some((Operator::Or, rest)),
            None => None,
        },
        Level::And => match behind(tokens, Mark::And) {
            Some(rest) => Some((Operator::And, rest)),
            None => None,
        },
        Level::Sum => {
            if let Some(rest) = behind(tokens, Mark::Plus) {
                return Some((Operator::Add, rest));
            }
            match behind(tokens, Mark::Minus) {
                Some(rest) => Some((Operator::Subtract, rest)),
                None => None,
            }
        }
        Level::Product => {
            if let Some(rest) = behind(tokens, Mark::Star) {
                return Some((Operator::Multiply, rest));
            }
            match behind(tokens, Mark::Slash) {
                Some(rest) => Some((Operator::Divide, rest)),
                None => None,
            }
        }
    }
}

/// The operator that a token stands for in front of an operand.
fn unary_of(kind: &Kind) -> Option<UnaryOperator>
    ensures { MatchOption result (IsTrue (begins_unary kind.now) → ⊥) (λ x. kind.now ≡ Kind.Fixed (unary_mark x)) }
{
    match kind {
        Kind::Fixed(mark) => UnaryOperator::of(*mark),
        _ => None,
    }
}

/// An operator in front of its operand, if one comes next.
pub fn unary_operator(tokens: &[Token]) -> Option<(UnaryOperator, &[Token])>
    ensures { MatchOption result (Starts begins_unary tokens.now → ⊥) (λ x. Is (unary_mark x.0) tokens.now x.1.now) }
{
    match next(tokens) {
        None => None,
        Some((token, rest)) => match unary_of(&token.kind) {
            None => None,
            Some(operator) => Some((operator, rest)),
        },
    }
}

/// The least number of a width, where it comes behind a minus sign.
pub fn least_behind(operator: UnaryOperator, tokens: &[Token]) -> Option<(Number, &[Token])>
    ensures { MatchOption result (operator ≡ UnaryOperator.Negative → Starts begins_least tokens.now → ⊥) (λ x. IsLeast tokens.now x.0 x.1.now × (operator ≡ UnaryOperator.Negative)) }
{
    match operator {
        UnaryOperator::Negative => match least(tokens) {
            None => None,
            Some((number, rest)) => Some((number, rest)),
        },
        _ => None,
    }
}

/// A chain of these operands; one alone is itself.
pub fn chain_of(
    alloc: Global,
    first: Expression,
    others: Seq<Operand>,
) -> Result<Expression, NoMemory>
    ensures { IfOk result (λ e. e ≡ chain_tree first others) }
{
    if others.is_empty() {
        return Ok(first);
    }
    let at = first.at;
    let first = Boxed::make(alloc, first)?;
    let form = Form::Chain { first, others };
    Ok(Expression { form, at })
}

/// The comparison of two values.
pub fn comparison_of(
    alloc: Global,
    left: Expression,
    comparison: Comparison,
    right: Expression,
) -> Result<Expression, NoMemory>
    ensures { IfOk result (λ e. e ≡ expression_at (place_of left) (Form.Compared left comparison right)) }
{
    let at = left.at;
    let left = Boxed::make(alloc, left)?;
    let right = Boxed::make(alloc, right)?;
    let form = Form::Compared {
        left,
        comparison,
        right,
    };
    Ok(Expression { form, at })
}
