//! What a program downgrades.

use fab_tree::Downgrade;

/// A downgrade: its kind, the place of `declassify` or `endorse` in bytes from 0, its number among all
/// sites, and the numbers of the labels from and to which it goes.
#[derive(Clone, Copy, Debug, PartialEq, Eq)]
pub struct Downgraded {
    pub downgrade: Downgrade,
    pub at: u32,
    pub site: u16,
    pub from: u16,
    pub to: u16,
}
