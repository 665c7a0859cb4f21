//! Masks: bit k of a `u64` stands for the number k.

ghost use Rattle.std.specs.Prelude.{ℕ, ◌<◌, ◌≤◌, IsBitSet, true, false};

/// Labels and classes, as masks by their numbers: those that a set of nodes reads, or those that it can't
/// have influenced.
#[derive(Clone, Copy, Debug, PartialEq, Eq)]
pub struct Seen {
    pub labels: u64,
    pub classes: u64,
}

/// The numbers below the bound that pass the test.
pub fn mask_of<F: Fn(u16) -> bool>(bound: u16, test: F) -> u64
    requires few { bound ≤ 64 }
    requires callable { F.IsAlwaysCallable test }
    ensures set { (k : ℕ) → IsBitSet result k → (k < bound) × F.post test k true }
    ensures clear { (k : ℕ) → k < bound → ¬ IsBitSet result k → F.post test k false }
{
    let mut mask = 0;
    for k in 0..bound {
        if test(k) {
            mask |= 1 << k;
        }
    }
    mask
}
