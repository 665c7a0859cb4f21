//! What a word is.
ghost use Rattle.std.specs.Prelude.{◌≡◌, IfOk};
ghost use Rattle.std.specs.List.{list_all};
ghost use Rattle.std.specs.Char.{is_ascii_digit};
ghost use Rattle.fab_base.specs.Tokens.{is_name_text, is_numeral, is_word_byte, is_space, value_from, number_kind, word_kind};

use crate::marks::keyword;
use fab_base::{Kind, NoMemory, Text};
use std::alloc::Global;

/// What the word is: a keyword, a name or a number, or nothing.
pub(crate) fn kind_of(alloc: Global, word: &str) -> Result<Option<Kind>, NoMemory>
    ensures { IfOk result (λ found. found ≡ word_kind word.now) }
{
    if let Some(mark) = keyword(word) {
        return Ok(Some(Kind::Fixed(mark)));
    }
    if is_name(word.as_bytes()) {
        return Ok(Some(Kind::Name(Text::make(alloc, word)?)));
    }
    if is_number(word.as_bytes()) {
        return Ok(number(word.as_bytes()));
    }
    Ok(None)
}

/// Whether a word that is no keyword is a name.
fn is_name(word: &[u8]) -> bool
    ensures { result ≡ is_name_text word.now }
{
    match word {
        [] => false,
        [first, rest @ ..] => !first.is_ascii_digit() && rest.len() <= 63,
    }
}

/// Whether a word is digits without a leading zero.
fn is_number(word: &[u8]) -> bool
    ensures { result ≡ is_numeral word.now }
{
    !word.is_empty() && all_digits(word) && (word.len() == 1 || word[0] != b'0')
}

fn all_digits(word: &[u8]) -> bool
    ensures { result ≡ list_all is_ascii_digit word.now }
{
    word.iter().all(|byte| byte.is_ascii_digit())
}

/// The number that these digits stand for, if it is small enough.
fn number(digits: &[u8]) -> Option<Kind>
    ensures { result ≡ number_kind (value_from 0 digits.now) }
{
    let mut value = 0u64;
    for digit in digits {
        value = 10 * value + u64::from(digit.saturating_sub(b'0'));
        if value > 2_147_483_648 {
            return None;
        }
    }
    if value == 2_147_483_648 {
        Some(Kind::Least)
    } else {
        Some(Kind::Number(value as u32))
    }
}

/// Whether a byte is a space, a tab, a line feed or a carriage return.
pub(crate) fn is_blank(byte: u8) -> bool
    ensures { result ≡ is_space byte }
{
    matches!(byte, b' ' | b'\t' | b'\n' | b'\r')
}

/// Whether words are made of this byte.
pub(crate) fn is_of_word(byte: u8) -> bool
    ensures { result ≡ is_word_byte byte }
{
    byte.is_ascii_alphanumeric() || byte == b'_'
}
