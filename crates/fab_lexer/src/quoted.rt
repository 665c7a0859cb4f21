//! Bytes in quotation marks.
ghost use Rattle.std.specs.Prelude.{◌≡◌, ◌<◌, ◌≤◌, true, length, IfOk};
ghost use Rattle.std.specs.List.{AllPass};
ghost use Rattle.fab_base.specs.Tokens.{bytes_of, digits_at, hex_value, is_hex_digit, quoted_at};
ghost use Rattle.fab_lexer.specs.Fronts.{shown};

use crate::front::Front;
use fab_base::{Kind, NoMemory, Piece, Seq};
use std::alloc::Global;

/// What stands behind a quotation mark.
pub(crate) fn quoted_before(alloc: Global, bytes: &[u8]) -> Result<Front, NoMemory>
    ensures { IfOk result (λ found. shown found ≡ quoted_at bytes.now) }
{
    let digits = digits_before(bytes);
    let len = digits.len();
    if len % 2 == 0 && bytes[len..].starts_with(b"\"") {
        let values = values_of(alloc, digits)?;
        return Ok(Front::Stands(Piece::Spelled {
            kind: Kind::Bytes(values),
            len: len + 2,
        }));
    }
    Ok(Front::Unfit(len + 1))
}

/// The longest run of digits at the front.
fn digits_before(bytes: &[u8]) -> &[u8]
    ensures { result.now ≡ digits_at bytes.now }
{
    let len = digits_len(bytes);
    &bytes[..len]
}

fn digits_len(bytes: &[u8]) -> usize
    ensures value { result ≡ length (digits_at bytes.now) }
    ensures within { result ≤ length bytes.now }
{
    bytes.iter().take_while(|byte| is_hex(**byte)).count()
}

/// The bytes that digits stand for, two for each.
fn values_of(alloc: Global, digits: &[u8]) -> Result<Seq<u8>, NoMemory>
    requires { AllPass is_hex_digit digits.now }
    ensures { IfOk result (λ values. values ≡ bytes_of digits.now) }
{
    let mut values = Seq::new(alloc);
    let mut rest = digits;
    'pairs: while let [high, low, after @ ..] = rest {
        values.push(16 * value_of(*high) + value_of(*low))?;
        rest = after;
    }
    Ok(values)
}

/// The number that a digit stands for.
fn value_of(digit: u8) -> u8
    requires { is_hex_digit digit ≡ true }
    ensures value { result ≡ hex_value digit }
    ensures small { result < 16 }
{
    if digit.is_ascii_digit() {
        digit - b'0'
    } else {
        digit - b'a' + 10
    }
}

/// Whether a byte is a digit of base 16, in lower case.
fn is_hex(byte: u8) -> bool
    ensures { result ≡ is_hex_digit byte }
{
    byte.is_ascii_digit() || matches!(byte, b'a'..=b'f')
}
