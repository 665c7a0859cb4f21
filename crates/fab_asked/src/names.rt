//! Which words are names of the language.
ghost use Rattle.std.specs.Prelude.{◌≡◌, IfOk};
ghost use Rattle.std.specs.List.{list_all};
ghost use Rattle.fab_base.specs.Tokens.{is_word_byte};
ghost use Rattle.fab_asked.specs.Names.{is_name_word, is_one_name};

use fab_base::{Kind, NoMemory, Token};
use fab_lexer::{LexError, tokens};
use std::alloc::{AllocError, Global};

/// The most bytes of a name.
const LONGEST: usize = 64;

/// Whether these are letters, digits and `_` alone.
fn are_of_words(bytes: &[u8]) -> bool
    ensures { result ≡ list_all is_word_byte bytes.now }
{
    bytes
        .iter()
        .all(|byte| byte.is_ascii_alphanumeric() || *byte == b'_')
}

/// Whether there is one token, a name.
fn are_one_name(tokens: &[Token]) -> bool
    ensures { result ≡ is_one_name tokens.now }
{
    match tokens {
        [token] => matches!(token.kind, Kind::Name(_)),
        _ => false,
    }
}

/// Whether the word is a name of the language.
pub(crate) fn is_name(alloc: Global, word: &str) -> Result<bool, NoMemory>
    ensures { IfOk result (λ found. found ≡ is_name_word word.now) }
{
    let bytes = word.as_bytes();
    if bytes.len() > LONGEST || !are_of_words(bytes) {
        return Ok(false);
    }
    match tokens(alloc, bytes) {
        Ok(tokens) => Ok(are_one_name(tokens.as_slice())),
        Err(LexError::Memory) => Err(AllocError),
        Err(LexError::Bad { .. }) => Ok(false),
    }
}
