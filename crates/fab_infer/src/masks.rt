//! Masks of labels: bit l of a mask stands for label l.
ghost use Rattle.std.specs.Prelude.{◌≡◌, ◌↔◌, ◌==◌, ℕ, IsBitSet, IsTrue, bit_and};

/// Whether all of the one are in the other.
pub(crate) fn is_within(a: u64, b: u64) -> bool
    ensures exact { IsTrue result ↔ ((l : ℕ) → IsBitSet a l → IsBitSet b l) }
    ensures computed { result ≡ (bit_and a b == a) }
{
    a & b == a
}
