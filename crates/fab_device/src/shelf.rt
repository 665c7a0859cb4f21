//! Pairs of a name and a value, looked up by name.
ghost use Rattle.std.specs.Prelude.{◌≡◌, ◌++◌, ◌∷◌, [], IfOk, OnOk, OnErr};
ghost use Rattle.std.specs.Option.{option_copied};
ghost use Rattle.fab_device.specs.Kept.{all_under, last_under, one_more};

use fab_base::{NoMemory, Text};
use std::alloc::Global;

/// What stands under a name, in order.
pub fn numbers_under(alloc: Global, pairs: &[(Text, u32)], name: &str) -> Result<Vec<u32>, NoMemory>
    ensures { IfOk result (λ v. v.items ≡ all_under name.now pairs.now) }
{
    let numbers = pairs
        .iter()
        .filter(|pair| pair.0.as_str() == name)
        .map(|pair| pair.1)
        .collect(alloc)?;
    Ok(numbers)
}

/// Puts a value under a name, behind the others.
fn put_last<T: Drop>(
    alloc: Global,
    pairs: &mut Vec<(Text, T)>,
    name: &str,
    value: T,
) -> Result<(), NoMemory>
    ensures put { OnOk result (pairs.new.items ≡ pairs.old.items ++ (name.now, value) ∷ []) }
    ensures same { OnErr result (pairs.new.items ≡ pairs.old.items) }
{
    let name = Text::make(alloc, name)?;
    pairs.push((name, value))?;
    Ok(())
}

/// The same; one that is lost for want of memory is counted.
pub fn put_under<T: Drop>(
    alloc: Global,
    pairs: &mut Vec<(Text, T)>,
    lost: &mut u64,
    name: &str,
    value: T,
) -> Result<(), NoMemory>
    ensures put { OnOk result (pairs.new.items ≡ pairs.old.items ++ (name.now, value) ∷ []) }
    ensures same { OnErr result (pairs.new.items ≡ pairs.old.items) }
    ensures lost { OnErr result (lost.new ≡ one_more lost.old) }
    ensures kept { OnOk result (lost.new ≡ lost.old) }
{
    let put = put_last(alloc, pairs, name, value);
    if put.is_err() {
        *lost = lost.saturating_add(1);
    }
    put
}

/// The last that stands under a name.
pub fn last_of<'a, T>(pairs: &'a [(Text, T)], name: &str) -> Option<&'a T>
    ensures { option_copied result ≡ last_under name.now pairs.now }
{
    pairs
        .iter()
        .rev()
        .find(|pair| pair.0.as_str() == name)
        .map(|pair| &pair.1)
}
