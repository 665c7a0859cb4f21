//! Sets of principals: bit p of a `u64` stands for principal p.
ghost use Rattle.std.specs.Prelude.{◌≡◌, ◌==◌, ℕ, ◌<◌, ◌≤◌, ◌||◌, All, map};
ghost use Rattle.fab_principals.specs.Sets.{in_set};
ghost use Rattle.fab_authority.specs.Authority.{IsMask, numbers_of};

use fab_tree::resolved::Use;

/// Whether a principal is in the set.
pub fn contains(set: u64, k: u16) -> bool
    requires { k < 64 }
    ensures { result ≡ in_set set k }
{
    set >> k & 1 == 1
}

/// The set of a principal alone.
pub(crate) fn only(k: u16) -> u64
    requires { k < 64 }
    ensures { (i : ℕ) → in_set result i ≡ (i == k) }
{
    1 << k
}

/// Those of both sets.
pub(crate) fn union(a: u64, b: u64) -> u64
    ensures either { (i : ℕ) → in_set result i ≡ (in_set a i || in_set b i) }
    ensures larger { a ≤ result }
{
    a | b
}

/// The set of these principals.
pub fn set_of(principals: &[Use]) -> u64
    requires { All (λ x. x.number < 64) principals.now }
    ensures { IsMask (numbers_of principals.now) result }
{
    let mut set = 0;
    for principal in principals {
        set = union(set, only(principal.number));
    }
    set
}
