//! What the words of the command line ask for.
ghost use Rattle.std.specs.Prelude.{◌≡◌, IfOk, map, string_bytes};
ghost use Rattle.std.specs.List.{list_all};
ghost use Rattle.fab_base.specs.Tokens.{is_name_text, is_word_byte};
ghost use Rattle.fab_drawing.specs.Asked.{asked_by as asked_by_words, is_node_word as is_word_of_node, number_from as number_from_digits, number_of as number_in, ordered as ordered_of, window_of as window_in};

use crate::asked::Asked;
use fab_base::{NoMemory, Seq};
use std::alloc::Global;

/// The greatest number that is told apart from those above it.
const MOST: u64 = 1_000_000_000;

/// Whether these are letters, digits and `_` alone.
fn are_of_words(bytes: &[u8]) -> bool
    ensures { result ≡ list_all is_word_byte bytes.now }
{
    bytes
        .iter()
        .all(|byte| byte.is_ascii_alphanumeric() || *byte == b'_')
}

/// Whether such a word begins with no digit and has at most 64 bytes.
fn begins_as_name(word: &[u8]) -> bool
    ensures { result ≡ is_name_text word.now }
{
    match word.split_first() {
        None => false,
        Some((first, rest)) => !first.is_ascii_digit() && rest.len() <= 63,
    }
}

/// Whether a word may be a node's name.
fn is_node_word(word: &[u8]) -> bool
    ensures { result ≡ is_word_of_node word.now }
{
    are_of_words(word) && begins_as_name(word)
}

/// The number that digits stand for; one above `MOST` counts as that.
fn number_from(digits: &[u8]) -> Option<u32>
    ensures { result ≡ number_from_digits 0 digits.now }
{
    let mut number = 0_u32;
    let mut rest = digits;
    'digits: while let Some((byte, after)) = rest.split_first() {
        if !byte.is_ascii_digit() {
            return None;
        }
        let more = 10 * u64::from(number) + u64::from(*byte - b'0');
        number = more.min(MOST) as u32;
        rest = after;
    }
    Some(number)
}

/// The number that a word of digits stands for.
fn number_of(word: &[u8]) -> Option<u32>
    ensures { result ≡ number_in word.now }
{
    match word {
        [] => None,
        [_, ..] => number_from(word),
    }
}

/// A window from one event to another, counted from 1.
fn ordered(from: Option<u32>, to: Option<u32>) -> Option<(u32, u32)>
    ensures { result ≡ ordered_of from to }
{
    match (from, to) {
        (Some(from), Some(to)) if 1 <= from && from <= to => Some((from, to)),
        _ => None,
    }
}

/// The window that words are, if they are one.
fn window_of(words: &[String]) -> Option<(u32, u32)>
    ensures { result ≡ window_in (map (λ w. string_bytes w) words.now) }
{
    let [from, first, to, last] = words else {
        return None;
    };
    if from.as_str() == "from" && to.as_str() == "to" {
        let first = number_of(first.as_str().as_bytes());
        let last = number_of(last.as_str().as_bytes());
        ordered(first, last)
    } else {
        None
    }
}

/// What the words ask for, if it is anything.
pub(crate) fn asked_by(alloc: Global, words: &[String]) -> Result<Option<Asked>, NoMemory>
    ensures { IfOk result (λ asked. asked ≡ asked_by_words words.now) }
{
    let mut nodes = Seq::new(alloc);
    let mut rest = words;
    'words: while let Some((word, after)) = rest.split_first() {
        if let Some((from, to)) = window_of(rest) {
            return Ok(Some(Asked { nodes, from, to }));
        }
        let word = word.as_str().as_bytes();
        if !is_node_word(word) {
            return Ok(None);
        }
        nodes.push(Seq::from_slice(alloc, word)?)?;
        rest = after;
    }
    let (from, to) = (1, 200);
    Ok(Some(Asked { nodes, from, to }))
}
