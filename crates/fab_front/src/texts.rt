//! What a text comes to before a command does anything with it.
ghost use Rattle.std.specs.Prelude.{◌≡◌, ◌≤◌, ◌<◌, ◌^◌, IfOk, length, drop};
ghost use Rattle.fab_base.specs.Tokens.{Lexes};
ghost use Rattle.fab_front.specs.Front.{IsFront, place_among};

use fab_base::{NoMemory, Token, What};
use fab_bundle::{BundleError, bundle};
use fab_lexer::{LexError, tokens};
use fab_tree::Start;
use std::alloc::{AllocError, Global};

/// The most bytes that a text has.
const BYTES: usize = 4_194_304;

/// A bundle, or why the text is refused: for a place that no text of the language has, or for a
/// limit.
#[derive(Debug, Drop)]
pub enum Outcome {
    Syntax { at: u32 },
    Limit { what: What },
    Bundle(Start),
}

/// The place of the token with so many before it, or the text's end.
fn place_at(tokens: &[Token], before: u32, end: u32) -> u32
    ensures { result ≡ place_among (drop before tokens.now) end }
{
    match tokens.get(before as usize) {
        Some(token) => token.at,
        None => end,
    }
}

/// What a text with these tokens comes to.
fn read(alloc: Global, text: &[u8], tokens: &[Token]) -> Result<Outcome, NoMemory>
    requires short { length text.now ≤ 4194304 }
    requires lexed { Lexes 0 text.now tokens.now }
    requires few { length tokens.now ≤ length text.now }
    ensures { IfOk result (λ x. IsFront text.now x) }
{
    let end = text.len() as u32;
    match bundle(alloc, tokens) {
        Ok(start) => Ok(Outcome::Bundle(start)),
        Err(BundleError::Memory) => Err(AllocError),
        Err(BundleError::Syntax { token }) => {
            let at = place_at(tokens, token, end);
            Ok(Outcome::Syntax { at })
        }
        Err(BundleError::DepthLimit { .. }) => {
            let what = What::Depth;
            Ok(Outcome::Limit { what })
        }
        Err(BundleError::Limit { what }) => Ok(Outcome::Limit { what }),
    }
}

/// What a text comes to.
pub fn front(alloc: Global, text: &[u8]) -> Result<Outcome, NoMemory>
    ensures { IfOk result (λ x. IsFront text.now x) }
{
    if text.len() > BYTES {
        let what = What::Bytes;
        return Ok(Outcome::Limit { what });
    }
    match tokens(alloc, text) {
        Ok(tokens) => read(alloc, text, tokens.as_slice()),
        Err(LexError::Memory) => Err(AllocError),
        Err(LexError::Bad { at }) => Ok(Outcome::Syntax { at }),
    }
}
