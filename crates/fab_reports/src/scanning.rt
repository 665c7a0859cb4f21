//! Words of any length at the front of some bytes, each with the byte that ends it.
ghost use Rattle.std.specs.Prelude.{◌≡◌, ◌<◌, ◌≤◌, option_map, IfSome, Some, None, if◌then◌else◌};
ghost use Rattle.fab_base.specs.Tokens.{is_hex_digit, hex_value, is_word_byte};
ghost use Rattle.fab_wire.specs.Reading.{Gives};
ghost use Rattle.fab_reports.specs.Reading.{is_end, next_number, number_at, may_go_on, word_at, bytes_at, u32_before, request_before, word_before, bytes_before};

use fab_base::{Seq, Text};
use fab_wire::Stop;
use std::alloc::Global;

/// Whether a byte ends a word.
pub(crate) fn is_end_of(ends: &[u8], byte: u8) -> bool
    ensures { result ≡ is_end ends.now byte }
{
    ends.iter().any(|end| *end == byte)
}

/// The number with one more digit, which is to lie within these bounds.
fn with_digit(so_far: Option<u32>, byte: u8, least: u32, most: u32) -> Option<u32>
    ensures { result ≡ next_number least most so_far byte }
{
    if !byte.is_ascii_digit() {
        return None;
    }
    let digit = u64::from(byte - b'0');
    let number = match so_far {
        None => {
            if digit < u64::from(least) {
                return None;
            }
            digit
        }
        Some(0) => return None,
        Some(number) => 10 * u64::from(number) + digit,
    };
    if number <= u64::from(most) {
        Some(number as u32)
    } else {
        None
    }
}

/// The number at the front, within these bounds and without leading zeros, and the byte that ends it.
#[tactic(auto, unfolding(crate::specs::Reading::number_at))]
pub(crate) fn number_of<'a>(
    bytes: &'a [u8],
    least: u32,
    most: u32,
    ends: &[u8],
) -> Result<((u32, u8), &'a [u8]), Stop>
    ensures { Gives (λ x. ((x.0.0, x.0.1), x.1.now)) result (number_at least most ends.now bytes.now) }
{
    let mut so_far = None;
    let mut rest = bytes;
    'digits: while let Some((byte, after)) = rest.split_first() {
        if is_end_of(ends, *byte) {
            return match so_far {
                Some(number) => Ok(((number, *byte), after)),
                None => Err(Stop::Bad { left: rest.len() }),
            };
        }
        match with_digit(so_far, *byte, least, most) {
            Some(number) => so_far = Some(number),
            None => return Err(Stop::Bad { left: rest.len() }),
        }
        rest = after;
    }
    Err(Stop::Bad { left: 0 })
}

/// Whether a word may have this byte behind so many.
fn goes_on(so_far: usize, byte: u8) -> bool
    ensures { result ≡ may_go_on so_far byte }
{
    if !byte.is_ascii_alphanumeric() && byte != b'_' {
        return false;
    }
    if so_far == 0 {
        !byte.is_ascii_digit()
    } else {
        so_far < 64
    }
}

/// The name or keyword at the front, and the byte that ends it.
#[tactic(auto, unfolding(crate::specs::Reading::word_at))]
pub(crate) fn word_of<'a>(
    alloc: Global,
    bytes: &'a [u8],
    ends: &[u8],
) -> Result<((Text, u8), &'a [u8]), Stop>
    ensures { Gives (λ x. ((x.0.0, x.0.1), x.1.now)) result (word_at ends.now bytes.now) }
{
    let mut so_far = 0;
    let mut rest = bytes;
    'letters: while let Some((byte, after)) = rest.split_first() {
        if is_end_of(ends, *byte) {
            if so_far == 0 {
                return Err(Stop::Bad { left: rest.len() });
            }
            let text = Text::from_ascii(alloc, &bytes[..so_far])?;
            return Ok(((text, *byte), after));
        }
        if !goes_on(so_far, *byte) {
            return Err(Stop::Bad { left: rest.len() });
        }
        so_far += 1;
        rest = after;
    }
    Err(Stop::Bad { left: 0 })
}

/// The number that a digit of base 16 stands for.
pub(crate) fn digit_value(byte: u8) -> Option<u8>
    ensures value { result ≡ (if is_hex_digit byte then Some (hex_value byte) else None) }
    ensures small { IfSome result (λ digit. digit < 16) }
{
    match byte {
        b'0'..=b'9' => Some(byte - b'0'),
        b'a'..=b'f' => Some(byte - b'a' + 10),
        _ => None,
    }
}

/// The bytes that stand at the front in digits, two for each, and the byte that ends them.
#[tactic(auto, unfolding(crate::specs::Reading::bytes_at))]
pub(crate) fn bytes_of<'a>(
    alloc: Global,
    bytes: &'a [u8],
    ends: &[u8],
) -> Result<((Seq<u8>, u8), &'a [u8]), Stop>
    ensures { Gives (λ x. ((x.0.0, x.0.1), x.1.now)) result (bytes_at ends.now bytes.now) }
{
    let mut found = Seq::new(alloc);
    let mut high: Option<u8> = None;
    let mut rest = bytes;
    'digits: while let Some((byte, after)) = rest.split_first() {
        if is_end_of(ends, *byte) {
            return match high {
                None => Ok(((found, *byte), after)),
                Some(_) => Err(Stop::Bad { left: rest.len() }),
            };
        }
        let Some(digit) = digit_value(*byte) else {
            return Err(Stop::Bad { left: rest.len() });
        };
        match high {
            None => high = Some(digit),
            Some(first) => {
                found.push(16 * first + digit)?;
                high = None;
            }
        }
        rest = after;
    }
    Err(Stop::Bad { left: 0 })
}

/// The number at the front, of 32 bits, which ends with this byte.
#[tactic(auto, unfolding(crate::specs::Reading::u32_before))]
pub(crate) fn u32_until(bytes: &[u8], end: u8) -> Result<(u32, &[u8]), Stop>
    ensures { Gives (λ x. (x.0, x.1.now)) result (u32_before end bytes.now) }
{
    let ((number, _end), rest) = number_of(bytes, 0, u32::MAX, &[end])?;
    Ok((number, rest))
}

/// A request's number at the front, from 1 on, which ends with this byte.
#[tactic(auto, unfolding(crate::specs::Reading::request_before))]
pub(crate) fn request_until(bytes: &[u8], end: u8) -> Result<(u32, &[u8]), Stop>
    ensures { Gives (λ x. (x.0, x.1.now)) result (request_before end bytes.now) }
{
    let ((number, _end), rest) = number_of(bytes, 1, u32::MAX, &[end])?;
    Ok((number, rest))
}

/// The name or keyword at the front, which ends with this byte.
#[tactic(auto, unfolding(crate::specs::Reading::word_before))]
pub(crate) fn word_until(alloc: Global, bytes: &[u8], end: u8) -> Result<(Text, &[u8]), Stop>
    ensures { Gives (λ x. (x.0, x.1.now)) result (word_before end bytes.now) }
{
    let ((text, _end), rest) = word_of(alloc, bytes, &[end])?;
    Ok((text, rest))
}

/// The bytes that stand at the front in digits, which end with this byte.
#[tactic(auto, unfolding(crate::specs::Reading::bytes_before))]
pub fn bytes_until(alloc: Global, bytes: &[u8], end: u8) -> Result<(Seq<u8>, &[u8]), Stop>
    ensures { Gives (λ x. (x.0, x.1.now)) result (bytes_before end bytes.now) }
{
    let ((found, _end), rest) = bytes_of(alloc, bytes, &[end])?;
    Ok((found, rest))
}
