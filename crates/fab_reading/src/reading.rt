//! Reading marks and names from tokens: each reader takes the tokens and answers those behind.
ghost use Rattle.std.specs.Prelude.{◌≡◌, ◌↔◌, ◌∷◌, [], ◌+◌, length, IsTrue, MatchOption, MatchResult};
ghost use Rattle.fab_tree.specs.Lists.{Is, IsName};
ghost use Rattle.fab_reading.specs.Reading.{Read, Stops, Starts, Lacks, CannotRead, CannotOpen, any, begins_name, first_place};

use crate::refusal::Refusal;
use fab_base::{Kind, Mark, Token};
use fab_tree::Name;
use std::alloc::Global;

/// The first item and those behind it.
pub fn next<T>(items: &[T]) -> Option<(&T, &[T])>
    ensures { MatchOption result (items.now ≡ []) (λ x. items.now ≡ x.0.now ∷ x.1.now) }
{
    items.split_first()
}

/// The place of the first token, 0 where there is none.
pub fn place(tokens: &[Token]) -> u32
    ensures { result ≡ first_place tokens.now }
{
    match next(tokens) {
        None => 0,
        Some((token, _)) => token.at,
    }
}

/// Whether a token is this mark.
fn is_mark(token: &Token, mark: Mark) -> bool
    ensures { IsTrue result ↔ (token.now.kind ≡ Kind.Fixed mark) }
{
    match token.kind {
        Kind::Fixed(found) => found == mark,
        _ => false,
    }
}

/// The tokens behind this mark, if it comes next.
#[tactic(auto, using(crate::proofs::Rules::is_at, crate::proofs::Rules::lacks_at, crate::proofs::Rules::lacks_end))]
pub fn behind(tokens: &[Token], mark: Mark) -> Option<&[Token]>
    ensures { MatchOption result (Lacks mark tokens.now) (λ rest. Is mark tokens.now rest.now) }
{
    match next(tokens) {
        Some((token, rest)) => {
            if is_mark(token, mark) {
                Some(rest)
            } else {
                None
            }
        }
        None => None,
    }
}

/// The tokens behind this mark.
pub fn sign(tokens: &[Token], mark: Mark) -> Result<&[Token], Refusal>
    ensures { MatchResult result (λ rest. Is mark tokens.now rest.now) (λ e. CannotRead mark tokens.now e) }
{
    match behind(tokens, mark) {
        Some(rest) => Ok(rest),
        None => Err(Refusal::Syntax { left: tokens.len() }),
    }
}

/// The tokens behind this opening bracket, and how many more may be opened there.
pub fn open(tokens: &[Token], mark: Mark, room: u8) -> Result<(&[Token], u8), Refusal>
    ensures { MatchResult result (λ x. Is mark tokens.now x.0.now × (room ≡ x.1 + 1)) (λ e. CannotOpen mark room tokens.now e) }
{
    match behind(tokens, mark) {
        Some(rest) => {
            if room == 0 {
                Err(Refusal::Deep { left: tokens.len() })
            } else {
                Ok((rest, room - 1))
            }
        }
        None => Err(Refusal::Syntax { left: tokens.len() }),
    }
}

/// A name.
pub fn name(alloc: Global, tokens: &[Token], room: u8) -> Result<(Name, &[Token]), Refusal>
    ensures { MatchResult result (λ x. Read IsName any room tokens.now x.0 x.1.now) (λ e. Stops IsName any room tokens.now e) }
{
    match next(tokens) {
        None => Err(Refusal::Syntax { left: 0 }),
        Some((token, rest)) => match &token.kind {
            Kind::Name(text) => {
                let text = text.copy()?;
                Ok((Name { text, at: token.at }, rest))
            }
            _ => Err(Refusal::Syntax { left: tokens.len() }),
        },
    }
}

/// Whether a name comes next.
pub fn starts_name(tokens: &[Token]) -> bool
    ensures { IsTrue result ↔ Starts begins_name tokens.now }
{
    match next(tokens) {
        None => false,
        Some((token, _)) => matches!(token.kind, Kind::Name(_)),
    }
}
