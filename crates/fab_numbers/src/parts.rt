//! What a part of a bundle becomes where numbers stand for names.
ghost use Rattle.std.specs.Prelude.{◌≡◌, map, IfOk};

use fab_base::{NoMemory, Seq};
use fab_tables::Tables;
use fab_tree::Name;
use std::alloc::Global;

/// A part of a bundle that has no sites.
pub(crate) trait Numbered {
    ghost use Rattle.std.specs.Prelude.{◌≡◌, IfOk};
    ghost use Rattle.fab_tree.specs.declared.start.Start.{Start as Bundle};

    /// What it becomes.
    type Made: Drop;

    ghost made: { Bundle → Self → Self.Made };

    /// What it becomes in a bundle.
    fn numbered(&self, alloc: Global, tables: &Tables<'_>) -> Result<Self::Made, NoMemory>
        ensures { IfOk result (λ r. r ≡ made tables.now self.now) };
}

/// What each becomes.
pub(crate) fn each_numbered<T: Numbered>(
    alloc: Global,
    tables: &Tables<'_>,
    items: &[T],
) -> Result<Seq<T::Made>, NoMemory>
    ensures { IfOk result (λ r. r ≡ map (T.made tables.now) items.now) }
{
    let mut made = Seq::new(alloc);
    for item in items {
        made.push(item.numbered(alloc, tables)?)?;
    }
    Ok(made)
}

/// The same name again, at the same place.
pub(crate) fn copied(name: &Name) -> Result<Name, NoMemory>
    ensures { IfOk result (λ n. n ≡ name.now) }
{
    Ok(Name {
        text: name.text.copy()?,
        at: name.at,
    })
}
