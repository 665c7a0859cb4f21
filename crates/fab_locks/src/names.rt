//! Sets of names, each with the number of a transaction that has it: the least number of a name is found
//! without a walk.
ghost use Rattle.std.specs.Prelude.{◌≡◌, ℕ, false, MatchOption, OnOk};
ghost use Rattle.fab_base.specs.FlatMap.{is_same};
ghost use Rattle.fab_base.specs.declared.object.Oid.{Oid as AnyOid};
ghost use Rattle.fab_locks.specs.Indexes.{any_named, has, is_changed, is_named, IsLeast, Keeps, Puts, Takes};

use fab_base::{Items, NoMemory, Object, Oid, Seq};
use fab_protocol::is_same_name;
use std::collections::BTreeSet;

/// What has the name of an object.
trait Named {
    /// The name.
    ghost name_of: { Self → AnyOid };

    fn name(&self) -> Oid
        ensures { result ≡ name_of self.now };
}

impl Named for (Oid, u32) {
    ghost name_of = { λ x. x.0 };

    fn name(&self) -> Oid {
        self.0
    }
}

impl Named for (Oid, u32, Object) {
    ghost name_of = { λ x. x.0 };

    fn name(&self) -> Oid {
        self.0
    }
}

impl Named for (Oid, Object) {
    ghost name_of = { λ x. x.0 };

    fn name(&self) -> Oid {
        self.0
    }
}

/// Puts a name under a number.
fn put_name(names: &mut BTreeSet<(Oid, u64)>, oid: Oid, number: u64) -> Result<(), NoMemory>
    ensures ok { OnOk result (Puts (is_same oid) number names.old names.new) }
    ensures kept { Keeps (is_same oid) number names.old names.new }
{
    names.insert((oid, number))?;
    Ok(())
}

/// Takes a name out from under a number. It takes no memory.
fn take_name(names: &mut BTreeSet<(Oid, u64)>, oid: Oid, number: u64)
    ensures { Takes (is_same oid) number names.old names.new }
{
    let key = (oid, number);
    names.remove(&key);
}

/// Puts the names of these under a number. Without memory some of them may have been put.
fn put_each<T: Named>(
    names: &mut BTreeSet<(Oid, u64)>,
    list: &Seq<T>,
    number: u64,
) -> Result<(), NoMemory>
    ensures ok { OnOk result (Puts (any_named T.name_of list.now) number names.old names.new) }
    ensures kept { Keeps (any_named T.name_of list.now) number names.old names.new }
{
    let mut rest = list.as_slice();
    'each: while let Some((first, others)) = rest.split_first() {
        put_name(names, first.name(), number)?;
        rest = others;
    }
    Ok(())
}

/// Takes the names of these out from under a number. It takes no memory.
fn take_each<T: Named>(names: &mut BTreeSet<(Oid, u64)>, list: &Seq<T>, number: u64)
    ensures { Takes (any_named T.name_of list.now) number names.old names.new }
{
    let mut rest = list.as_slice();
    'each: while let Some((first, others)) = rest.split_first() {
        take_name(names, first.name(), number);
        rest = others;
    }
}

/// Puts the names that items write or create under a number. Without memory some may have been put.
pub(crate) fn put_changed(
    names: &mut BTreeSet<(Oid, u64)>,
    items: &Items,
    number: u64,
) -> Result<(), NoMemory>
    ensures ok { OnOk result (Puts (is_changed items.now) number names.old names.new) }
    ensures kept { Keeps (is_changed items.now) number names.old names.new }
{
    put_each(names, &items.writes, number)?;
    put_each(names, &items.creates, number)
}

/// Puts all names of items under a number. Without memory some may have been put.
pub(crate) fn put_named(
    names: &mut BTreeSet<(Oid, u64)>,
    items: &Items,
    number: u64,
) -> Result<(), NoMemory>
    ensures ok { OnOk result (Puts (is_named items.now) number names.old names.new) }
    ensures kept { Keeps (is_named items.now) number names.old names.new }
{
    put_each(names, &items.reads, number)?;
    put_changed(names, items, number)
}

/// Takes the names that items write or create out from under a number. It takes no memory.
pub(crate) fn take_changed(names: &mut BTreeSet<(Oid, u64)>, items: &Items, number: u64)
    ensures { Takes (is_changed items.now) number names.old names.new }
{
    take_each(names, &items.writes, number);
    take_each(names, &items.creates, number);
}

/// Takes all names of items out from under a number. It takes no memory.
pub(crate) fn take_named(names: &mut BTreeSet<(Oid, u64)>, items: &Items, number: u64)
    ensures { Takes (is_named items.now) number names.old names.new }
{
    take_each(names, &items.reads, number);
    take_changed(names, items, number);
}

/// The least number under which a name is put.
pub(crate) fn first_number(names: &BTreeSet<(Oid, u64)>, oid: Oid) -> Option<u64>
    ensures { MatchOption result ((n : ℕ) → has names.now oid n ≡ false) (IsLeast (has names.now oid)) }
{
    let first = names.range((oid, 0u64)..).next()?;
    if is_same_name(first.0, oid) {
        Some(first.1)
    } else {
        None
    }
}
