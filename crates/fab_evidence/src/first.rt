//! The first line of a text that isn't what belongs there.

ghost use Rattle.std.specs.Prelude.{◌≡◌, ◌<◌, ◌∷◌, ◌⊎◌, [], List, length, IfOk, IsFalse};
ghost use Rattle.std.specs.Str.{bytes_eq};
ghost use Rattle.fab_evidence.specs.First.{Row, differ_at, first_from, kind_of, lines_in, not_enabled, row_of, rows_of, up_to_barred};

use crate::shown::Difference;
use fab_base::{NoMemory, Seq};
use std::alloc::Global;

/// The line at the front, without its line feed, and the bytes behind it.
fn first_line(bytes: &[u8]) -> (&[u8], &[u8])
    requires { 0 < length bytes.now }
    ensures lines { lines_in bytes.now ≡ result.0.now ∷ lines_in result.1.now }
    ensures shorter { length result.1.now < length bytes.now }
{
    let mut count = 0;
    let mut rest = bytes;
    'letters: while let Some((byte, after)) = rest.split_first() {
        if *byte == b'\n' {
            return (&bytes[..count], after);
        }
        count += 1;
        rest = after;
    }
    (bytes, rest)
}

/// Whether two lines are the same.
fn is_same(left: &[u8], right: &[u8]) -> bool
    ensures { result ≡ bytes_eq left.now right.now }
{
    left == right
}

/// A line's kind, by its first word.
fn kind_of(text: &[u8]) -> u8
    ensures { result ≡ kind_of text.now }
{
    if text.starts_with(b"fab") {
        0
    } else if text.starts_with(b"event") {
        1
    } else if text.starts_with(b"commit") {
        2
    } else if text.starts_with(b"outcome") {
        3
    } else if text.starts_with(b"object") {
        4
    } else if text.starts_with(b"end") {
        5
    } else if text.starts_with(b"journal") {
        6
    } else {
        7
    }
}

/// What is found at a place, and what is kept.
fn difference(
    alloc: Global,
    line: u32,
    found: &[u8],
    kept: &[u8],
) -> Result<Option<Difference>, NoMemory>
    ensures { IfOk result (λ x. x ≡ differ_at line found.now kept.now) }
{
    let found = Seq::from_slice(alloc, found)?;
    let kept = Seq::from_slice(alloc, kept)?;
    Ok(Some(Difference { line, found, kept }))
}

/// The difference at a place where a line stands that isn't the one that belongs there, which is of this kind.
fn differing(
    alloc: Global,
    line: u32,
    found: &[u8],
    kind: u8,
    kept: &[u8],
) -> Result<Option<Difference>, NoMemory>
    requires { IsFalse (bytes_eq found.now kept.now) }
    ensures { (xs ys : List Row) → IfOk result (λ x. x ≡ first_from line (row_of found.now ∷ xs) (record { kind = kind; text = kept.now } ∷ ys)) }
{
    let found_kind = kind_of(found);
    if kind < found_kind {
        difference(alloc, line, &[], kept)
    } else if found_kind < kind {
        difference(alloc, line, found, &[])
    } else {
        difference(alloc, line, found, kept)
    }
}

/// The difference at a place where one of two texts ends.
fn at_end(
    alloc: Global,
    line: u32,
    found: &[u8],
    kept: &[u8],
) -> Result<Option<Difference>, NoMemory>
    requires { (found.now ≡ []) ⊎ (kept.now ≡ []) }
    ensures { IfOk result (λ x. x ≡ first_from line (rows_of found.now) (rows_of kept.now)) }
{
    if !found.is_empty() {
        let (first, _) = first_line(found);
        return difference(alloc, line, first, &[]);
    }
    if !kept.is_empty() {
        let (first, _) = first_line(kept);
        return difference(alloc, line, &[], first);
    }
    Ok(None)
}

/// The first line of a text that isn't the one that belongs there.
pub fn first_difference(
    alloc: Global,
    found: &[u8],
    kept: &[u8],
) -> Result<Option<Difference>, NoMemory>
    requires { length found.now < 4294967295 }
    ensures { IfOk result (λ x. x ≡ first_from 1 (rows_of found.now) (rows_of kept.now)) }
{
    let mut line = 1;
    let mut left = found;
    let mut right = kept;
    'lines: while !left.is_empty() && !right.is_empty() {
        let (first, left_rest) = first_line(left);
        let (second, right_rest) = first_line(right);
        if !is_same(first, second) {
            return differing(alloc, line, first, kind_of(second), second);
        }
        line += 1;
        left = left_rest;
        right = right_rest;
    }
    at_end(alloc, line, left, right)
}

/// The difference where an event that may not come belongs, and nothing behind it.
fn at_barred(alloc: Global, line: u32, found: &[u8]) -> Result<Option<Difference>, NoMemory>
    requires { line < 4294967295 }
    ensures { IfOk result (λ x. x ≡ first_from line (rows_of found.now) (not_enabled ∷ [])) }
{
    if found.is_empty() {
        return difference(alloc, line, &[], b"not enabled");
    }
    let (first, rest) = first_line(found);
    if !is_same(first, b"not enabled") {
        return differing(alloc, line, first, 1, b"not enabled");
    }
    at_end(alloc, line + 1, rest, &[])
}

/// The first line of a text that isn't the one that belongs there, where so many lines of another text belong, and
/// then an event that may not come.
pub fn first_before_barred(
    alloc: Global,
    found: &[u8],
    kept: &[u8],
    lines: usize,
) -> Result<Option<Difference>, NoMemory>
    requires { length found.now < 4294967294 }
    ensures { IfOk result (λ x. x ≡ first_from 1 (rows_of found.now) (up_to_barred lines (rows_of kept.now))) }
{
    let mut line = 1;
    let mut more = lines;
    let mut left = found;
    let mut right = kept;
    'lines: while more > 0 && !left.is_empty() && !right.is_empty() {
        let (first, left_rest) = first_line(left);
        let (second, right_rest) = first_line(right);
        if !is_same(first, second) {
            return differing(alloc, line, first, kind_of(second), second);
        }
        line += 1;
        more -= 1;
        left = left_rest;
        right = right_rest;
    }
    if more > 0 && !right.is_empty() {
        let (second, _) = first_line(right);
        return difference(alloc, line, &[], second);
    }
    at_barred(alloc, line, left)
}
