//! Sets of numbers.
ghost use Rattle.std.specs.Prelude.{◌≡◌, ℕ, IfOk};
ghost use Rattle.fab_sets.specs.Numbers.{is_listed};

use fab_base::NoMemory;
use indexmap::IndexSet;
use std::alloc::Global;

/// Whether a number is in the set.
pub fn is_listed(set: &IndexSet<u16>, number: u16) -> bool
    ensures { result ≡ is_listed number set.now.keys }
{
    set.contains(&number)
}

/// The set of these numbers.
pub fn set_of(alloc: Global, numbers: &[u16]) -> Result<IndexSet<u16>, NoMemory>
    ensures { IfOk result (λ set. (n : ℕ) → is_listed n set.keys ≡ is_listed n numbers.now) }
{
    let mut set = IndexSet::new(alloc);
    for number in numbers {
        set.insert(*number)?;
    }
    Ok(set)
}
