//! Sets of numbers below 64: bit k of a `u64` stands for k.

ghost use Rattle.std.specs.Prelude.{◌≡◌, ◌==◌, ℕ, ◌<◌, ◌≤◌, ◌↔◌, ◌||◌, ◌&&◌, true, false, bit_and, IsTrue, IfNone, IfSome};
ghost use Rattle.std.specs.Int.{trailing_zeros, w64};
ghost use Rattle.fab_principals.specs.Sets.{in_set, Meets};

pub fn contains(set: u64, k: u16) -> bool
    requires { k < 64 }
    ensures { result ≡ in_set set k }
{
    set >> k & 1 == 1
}

pub fn only(k: u16) -> u64
    requires { k < 64 }
    ensures { (i : ℕ) → in_set result i ≡ (i == k) }
{
    1 << k
}

pub fn union(a: u64, b: u64) -> u64
    ensures either { (i : ℕ) → in_set result i ≡ (in_set a i || in_set b i) }
    ensures larger { a ≤ result }
{
    a | b
}

pub fn meets(a: u64, b: u64) -> bool
    ensures { IsTrue result ↔ Meets a b }
{
    a & b != 0
}

/// The least number that is in both sets.
pub fn first_common(a: u64, b: u64) -> Option<u16>
    ensures none { IfNone result ((i : ℕ) → (in_set a i && in_set b i) ≡ false) }
    ensures found { IfSome result (λ k. (in_set a k && in_set b k) ≡ true) }
    ensures least { IfSome result (λ k. (i : ℕ) → i < k → (in_set a i && in_set b i) ≡ false) }
    ensures lowest { IfSome result (λ k. k ≡ trailing_zeros w64 (bit_and a b)) }
    ensures small { IfSome result (λ k. k < 64) }
{
    let both = a & b;
    if both == 0 {
        None
    } else {
        Some(both.trailing_zeros() as u16)
    }
}
