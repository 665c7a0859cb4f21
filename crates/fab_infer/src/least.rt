//! The least label for each hole, by what lies below it.
ghost use Rattle.std.specs.Prelude.{◌≡◌, ◌↔◌, ◌≤◌, ◌<◌, ℕ, IfOk, IsBitSet, IsTrue, MatchOption, MatchResult, length, option_copied, slice_get};
ghost use Rattle.fab_tree.specs.declared.resolved.Resolved.{Resolved as Bundle};
ghost use Rattle.fab_holes.specs.Least.{AreLeast, Fits, IsLeast, IsLowest};
ghost use Rattle.fab_infer.specs.Masks.{AreBelow, IsBelow, IsTable, IsWithout, fits_in};

use crate::masks::is_within;
use crate::rows::Row;
use fab_base::{NoMemory, Seq};
use fab_places::mask_of;
use fab_rights::is_in;
use std::alloc::Global;

/// The row of the label of a number.
fn row_at(rows: &[Row], k: u16) -> Option<&Row>
    ensures { option_copied result ≡ slice_get rows.now k }
{
    rows.get(usize::from(k))
}

/// Whether each label of a mask flows to this one.
fn fits(rows: &[Row], below: u64, k: u16) -> bool
    ensures { result ≡ fits_in rows.now below k }
{
    match row_at(rows, k) {
        Some(row) => is_within(below, row.below),
        None => false,
    }
}

/// The labels to which each of a mask flows.
fn fitting(rows: &[Row], below: u64) -> u64
    requires { length rows.now ≤ 64 }
    ensures { (k : ℕ) → IsBitSet result k ↔ ((k < length rows.now) × IsTrue (fits_in rows.now below k)) }
{
    mask_of(rows.len() as u16, |k| fits(rows, below, k))
}

/// Whether a label is one of these and flows to each of them.
fn is_lowest(rows: &[Row], fitting: u64, k: u16) -> bool
    requires { length rows.now ≤ 64 }
    ensures { (r : Bundle) (h : ℕ) → IsTable r rows.now → ((m : ℕ) → IsBitSet fitting m ↔ Fits r h m) → IsTrue result ↔ IsLowest r h k }
{
    match row_at(rows, k) {
        Some(row) => is_in(fitting, k) && is_within(fitting, row.above),
        None => false,
    }
}

/// The first label that fits a hole and flows to each that fits.
pub(crate) fn least(rows: &[Row], below: u64) -> Option<u16>
    requires { length rows.now ≤ 64 }
    ensures { (r : Bundle) (h : ℕ) → IsTable r rows.now → IsBelow r h below → MatchOption result ((k : ℕ) → ¬ IsLeast r h k) (IsLeast r h) }
{
    let fitting = fitting(rows, below);
    for k in 0..rows.len() as u16 {
        if is_lowest(rows, fitting, k) {
            return Some(k);
        }
    }
    None
}

/// The least labels for all holes, or the number of the first that has none.
pub(crate) fn leasts(
    alloc: Global,
    rows: &[Row],
    below: &[u64],
) -> Result<Result<Seq<u16>, usize>, NoMemory>
    requires { length rows.now ≤ 64 }
    ensures bound { IfOk result (λ found. MatchResult found (λ choice. length choice ≡ length below.now) (λ hole. hole < length below.now)) }
    ensures least { IfOk result (λ found. (r : Bundle) → IsTable r rows.now → AreBelow r 0 below.now → MatchResult found (AreLeast r 0) (IsWithout r)) }
{
    let mut choice = Seq::new(alloc);
    for mask in below {
        match least(rows, *mask) {
            Some(label) => choice.push(label)?,
            None => return Ok(Err(choice.len())),
        }
    }
    Ok(Ok(choice))
}
