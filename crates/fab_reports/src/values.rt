//! Names of objects and values at the front of some bytes, each with the byte that ends it.
ghost use Rattle.std.specs.Prelude.{◌≡◌, ◌<◌, IfOk};
ghost use Rattle.fab_wire.specs.Reading.{Gives};
ghost use Rattle.fab_reports.specs.Reading.{digit_at, pair_at, two_at, four_at, oid_at, end_at, unnamed_at, rooted_at, name_at, negative_at, natural_at, named_value, named_at, value_at, fields_at};

use crate::line::{ShownName, ShownValue};
use crate::scanning::{digit_value, is_end_of, number_of, word_of};
use fab_base::{Oid, Seq};
use fab_wire::{Stop, byte_of};
use std::alloc::Global;

fn digit_of(bytes: &[u8]) -> Result<(u8, &[u8]), Stop>
    ensures value { Gives (λ x. (x.0, x.1.now)) result (digit_at bytes.now) }
    ensures small { IfOk result (λ x. x.0 < 16) }
{
    let Some((byte, rest)) = bytes.split_first() else {
        return Err(Stop::Bad { left: 0 });
    };
    match digit_value(*byte) {
        Some(digit) => Ok((digit, rest)),
        None => Err(Stop::Bad { left: bytes.len() }),
    }
}

#[tactic(auto, unfolding(crate::specs::Reading::pair_at))]
fn pair_of(bytes: &[u8]) -> Result<(u8, &[u8]), Stop>
    ensures { Gives (λ x. (x.0, x.1.now)) result (pair_at bytes.now) }
{
    let (high, rest) = digit_of(bytes)?;
    let (low, rest) = digit_of(rest)?;
    Ok((16 * high + low, rest))
}

#[tactic(auto, unfolding(crate::specs::Reading::two_at))]
fn two_of(bytes: &[u8]) -> Result<(u16, &[u8]), Stop>
    ensures { Gives (λ x. (x.0, x.1.now)) result (two_at bytes.now) }
{
    let (high, rest) = pair_of(bytes)?;
    let (low, rest) = pair_of(rest)?;
    Ok((256 * u16::from(high) + u16::from(low), rest))
}

#[tactic(auto, unfolding(crate::specs::Reading::four_at))]
fn four_of(bytes: &[u8]) -> Result<(u32, &[u8]), Stop>
    ensures { Gives (λ x. (x.0, x.1.now)) result (four_at bytes.now) }
{
    let (high, rest) = two_of(bytes)?;
    let (low, rest) = two_of(rest)?;
    Ok((65_536 * u32::from(high) + u32::from(low), rest))
}

/// The object's name that stands at the front in 36 digits.
#[tactic(auto, unfolding(crate::specs::Reading::oid_at))]
fn oid_of(bytes: &[u8]) -> Result<(Oid, &[u8]), Stop>
    ensures { Gives (λ x. (x.0, x.1.now)) result (oid_at bytes.now) }
{
    let (store, rest) = two_of(bytes)?;
    let (class, rest) = two_of(rest)?;
    let (worker, rest) = two_of(rest)?;
    let (boot, rest) = four_of(rest)?;
    let (number, rest) = four_of(rest)?;
    let (site, rest) = two_of(rest)?;
    let (index, rest) = two_of(rest)?;
    let oid = Oid {
        store,
        class,
        worker,
        boot,
        number,
        site,
        index,
    };
    Ok((oid, rest))
}

fn end_of<'a>(bytes: &'a [u8], ends: &[u8]) -> Result<(u8, &'a [u8]), Stop>
    ensures { Gives (λ x. (x.0, x.1.now)) result (end_at ends.now bytes.now) }
{
    let Some((byte, rest)) = bytes.split_first() else {
        return Err(Stop::Bad { left: 0 });
    };
    if is_end_of(ends, *byte) {
        Ok((*byte, rest))
    } else {
        Err(Stop::Bad { left: bytes.len() })
    }
}

#[tactic(auto, unfolding(crate::specs::Reading::unnamed_at))]
fn unnamed_of<'a>(bytes: &'a [u8], ends: &[u8]) -> Result<((ShownName, u8), &'a [u8]), Stop>
    ensures { Gives (λ x. ((x.0.0, x.0.1), x.1.now)) result (unnamed_at ends.now bytes.now) }
{
    let (_sign, rest) = byte_of(bytes, b'#', b'#')?;
    let (oid, rest) = oid_of(rest)?;
    let (end, rest) = end_of(rest, ends)?;
    Ok(((ShownName::Unnamed(oid), end), rest))
}

#[tactic(auto, unfolding(crate::specs::Reading::rooted_at))]
fn rooted_of<'a>(
    alloc: Global,
    bytes: &'a [u8],
    ends: &[u8],
) -> Result<((ShownName, u8), &'a [u8]), Stop>
    ensures { Gives (λ x. ((x.0.0, x.0.1), x.1.now)) result (rooted_at ends.now bytes.now) }
{
    let ((text, end), rest) = word_of(alloc, bytes, ends)?;
    Ok(((ShownName::Root(text), end), rest))
}

/// The object's name at the front.
#[tactic(auto, unfolding(crate::specs::Reading::name_at))]
pub(crate) fn name_of<'a>(
    alloc: Global,
    bytes: &'a [u8],
    ends: &[u8],
) -> Result<((ShownName, u8), &'a [u8]), Stop>
    ensures { Gives (λ x. ((x.0.0, x.0.1), x.1.now)) result (name_at ends.now bytes.now) }
{
    match bytes {
        [] => Err(Stop::Bad { left: 0 }),
        [b'#', ..] => unnamed_of(bytes, ends),
        [_, ..] => rooted_of(alloc, bytes, ends),
    }
}

#[tactic(auto, unfolding(crate::specs::Reading::negative_at))]
fn negative_of<'a>(bytes: &'a [u8], ends: &[u8]) -> Result<((ShownValue, u8), &'a [u8]), Stop>
    ensures { Gives (λ x. ((x.0.0, x.0.1), x.1.now)) result (negative_at ends.now bytes.now) }
{
    let (_sign, rest) = byte_of(bytes, b'-', b'-')?;
    let ((number, end), rest) = number_of(rest, 1, 2_147_483_648, ends)?;
    let value = ShownValue::Number((-i64::from(number)) as i32);
    Ok(((value, end), rest))
}

#[tactic(auto, unfolding(crate::specs::Reading::natural_at))]
fn natural_of<'a>(bytes: &'a [u8], ends: &[u8]) -> Result<((ShownValue, u8), &'a [u8]), Stop>
    ensures { Gives (λ x. ((x.0.0, x.0.1), x.1.now)) result (natural_at ends.now bytes.now) }
{
    let ((number, end), rest) = number_of(bytes, 0, 2_147_483_647, ends)?;
    let value = ShownValue::Number(number as i32);
    Ok(((value, end), rest))
}

/// What a name is where a value stands.
fn value_named(name: ShownName) -> ShownValue
    ensures { result ≡ named_value name }
{
    match name {
        ShownName::Root(text) => {
            if text.as_str() == "null" {
                ShownValue::Null
            } else {
                ShownValue::Object(ShownName::Root(text))
            }
        }
        ShownName::Unnamed(oid) => ShownValue::Object(ShownName::Unnamed(oid)),
    }
}

#[tactic(auto, unfolding(crate::specs::Reading::named_at))]
fn named_of<'a>(
    alloc: Global,
    bytes: &'a [u8],
    ends: &[u8],
) -> Result<((ShownValue, u8), &'a [u8]), Stop>
    ensures { Gives (λ x. ((x.0.0, x.0.1), x.1.now)) result (named_at ends.now bytes.now) }
{
    let ((name, end), rest) = name_of(alloc, bytes, ends)?;
    Ok(((value_named(name), end), rest))
}

/// The value at the front.
#[tactic(auto, unfolding(crate::specs::Reading::value_at))]
pub(crate) fn value_of<'a>(
    alloc: Global,
    bytes: &'a [u8],
    ends: &[u8],
) -> Result<((ShownValue, u8), &'a [u8]), Stop>
    ensures { Gives (λ x. ((x.0.0, x.0.1), x.1.now)) result (value_at ends.now bytes.now) }
{
    match bytes {
        [] => Err(Stop::Bad { left: 0 }),
        [b'-', ..] => negative_of(bytes, ends),
        [b'0'..=b'9', ..] => natural_of(bytes, ends),
        [_, ..] => named_of(alloc, bytes, ends),
    }
}

/// The values behind a word that this byte ended: none behind a line feed, else one, and those behind
/// it.
pub(crate) fn fields_of(
    alloc: Global,
    end: u8,
    bytes: &[u8],
) -> Result<(Seq<ShownValue>, &[u8]), Stop>
    ensures { Gives (λ x. (x.0, x.1.now)) result (fields_at end bytes.now) }
{
    let mut fields = Seq::new(alloc);
    let mut last = end;
    let mut rest = bytes;
    'fields: while last == b' ' {
        let ((value, next), after) = value_of(alloc, rest, b" \n")?;
        fields.push(value)?;
        last = next;
        rest = after;
    }
    Ok((fields, rest))
}
