//! Numbers among tokens.
ghost use Rattle.std.specs.Prelude.{◌≡◌, ◌<◌, ◌∷◌, IsTrue, List, MatchOption, pos};
ghost use Rattle.fab_base.specs.declared.token.Token.{Token as TokenTree};
ghost use Rattle.fab_tree.specs.Lists.{IsNumeral, IsNumber, IsLeast, minus};
ghost use Rattle.fab_tree.specs.Runs.{IsNegated};
ghost use Rattle.fab_reading.specs.Reading.{Starts, begins_numeral, begins_least, begins_negated};

use crate::reading::next;
use fab_base::{Kind, Token};
use fab_tree::Number;

/// A number of 31 bits as one of 32 bits with a sign.
fn positive(number: u32) -> i32
    requires { number < 2147483648 }
    ensures { result ≡ pos number }
{
    number as i32
}

/// A number of 31 bits with its sign changed.
fn opposite(number: u32) -> i32
    requires { number < 2147483648 }
    ensures { result ≡ minus number }
{
    -positive(number)
}

/// A number of 31 bits.
pub fn numeral(tokens: &[Token]) -> Option<(u32, &[Token])>
    ensures { MatchOption result (Starts begins_numeral tokens.now → ⊥) (λ x. IsNumeral tokens.now x.0 x.1.now) }
{
    match next(tokens) {
        None => None,
        Some((token, rest)) => match small_number(&token.kind) {
            None => None,
            Some(number) => Some((number, rest)),
        },
    }
}

/// The number that a token is, if it has 31 bits.
fn small_number(kind: &Kind) -> Option<u32>
    ensures { MatchOption result (IsTrue (begins_numeral kind.now) → ⊥) (λ n. (kind.now ≡ Kind.Number n) × (n < 2147483648)) }
{
    match kind {
        Kind::Number(number) => {
            if *number < 2_147_483_648 {
                Some(*number)
            } else {
                None
            }
        }
        _ => None,
    }
}

/// A number, with its width.
pub fn number(tokens: &[Token]) -> Option<(Number, &[Token])>
    ensures { MatchOption result (Starts begins_numeral tokens.now → ⊥) (λ x. IsNumber tokens.now x.0 x.1.now) }
{
    match numeral(tokens) {
        None => None,
        Some((number, rest)) => Some((Number::Int(positive(number)), rest)),
    }
}

/// A number behind a minus sign, which has been read.
pub fn negative(tokens: &[Token]) -> Option<(Number, &[Token])>
    ensures { MatchOption result (Starts begins_negated tokens.now → ⊥) (λ x. IsNegated tokens.now x.0 x.1.now) }
{
    if let Some((number, rest)) = numeral(tokens) {
        return Some((Number::Int(opposite(number)), rest));
    }
    match least(tokens) {
        None => None,
        Some((number, rest)) => Some((number, rest)),
    }
}

/// The least number of a width, by its digits.
pub fn least(tokens: &[Token]) -> Option<(Number, &[Token])>
    ensures { MatchOption result (Starts begins_least tokens.now → ⊥) (λ x. IsLeast tokens.now x.0 x.1.now) }
{
    match behind_least(tokens) {
        None => None,
        Some(rest) => Some((Number::Int(i32::MIN), rest)),
    }
}

/// The tokens behind 2147483648.
fn behind_least(tokens: &[Token]) -> Option<&[Token]>
    ensures { MatchOption result ((t : TokenTree) (ts : List TokenTree) → tokens.now ≡ t ∷ ts → t.kind ≡ Kind.Least → ⊥) (λ rest. (t : TokenTree) × (tokens.now ≡ t ∷ rest.now) × (t.kind ≡ Kind.Least)) }
{
    match next(tokens) {
        None => None,
        Some((token, rest)) => match token.kind {
            Kind::Least => Some(rest),
            _ => None,
        },
    }
}
