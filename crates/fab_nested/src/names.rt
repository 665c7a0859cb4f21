//! Names in order, each once: few in a plain list, and more in a table.
ghost use Rattle.std.specs.Prelude.{◌≡◌, ◌-◌, ◌<◌, ◌^◌, [], ◌∷◌, ◌++◌, length, take, false, IfOk, IfSome, OnOk, OnErr};
ghost use Rattle.std.specs.List.{list_any, IsDistinct};
ghost use Rattle.fab_nested.specs.Listed.{listed};

use fab_base::NoMemory;
use indexmap::IndexSet;
use std::alloc::Global;
use std::hash::Hash;
use std::marker::Model;

const MAX_FEW: usize = 8;

/// Few names in a list, which is sought through, or many in a table.
#[derive(Drop)]
pub(crate) enum Held<T: Eq + Hash + Copy> {
    Few(Vec<T>),
    Many(IndexSet<T>),
}

impl<T: Eq + Hash + Copy> Held<T> {
    /// The table of all with one more that isn't there, where a list has as many as it may.
    fn outgrown(&self, name: T) -> Result<Option<IndexSet<T>>, NoMemory>
        requires distinct { IsDistinct T.eq (listed self.now) }
        requires absent { list_any (T.eq name) (listed self.now) ≡ false }
        ensures { IfOk result (λ found. IfSome found (λ set. set.keys ≡ listed self.now ++ name ∷ [])) }
    {
        match self {
            Held::Few(list) => {
                if list.len() < MAX_FEW {
                    return Ok(None);
                }
                let set = table_with(*list.allocator(), list.as_slice(), name)?;
                Ok(Some(set))
            }
            Held::Many(_) => Ok(None),
        }
    }

    /// One more at the end, that isn't there.
    fn push(&mut self, name: T) -> Result<(), NoMemory>
        requires distinct { IsDistinct T.eq (listed self.old) }
        requires absent { list_any (T.eq name) (listed self.old) ≡ false }
        ensures ok { OnOk result (listed self.new ≡ listed self.old ++ name ∷ []) }
        ensures err { OnErr result (listed self.new ≡ listed self.old) }
    {
        if let Some(set) = self.outgrown(name)? {
            *self = Held::Many(set);
            return Ok(());
        }
        match self {
            Held::Few(list) => Ok(list.push(name)?),
            Held::Many(set) => {
                set.insert(name)?;
                Ok(())
            }
        }
    }

    /// The first ones, so many.
    fn truncate(&mut self, len: usize)
        ensures { listed self.new ≡ take len (listed self.old) }
    {
        match self {
            Held::Few(list) => list.truncate(len),
            Held::Many(set) => set.truncate(len),
        }
    }
}

/// Names in order, each once. Contracts see the list of them. Most runs name few objects: these cost a
/// list alone, and no table is made. Names that were many stay in the table.
#[derive(Drop)]
pub(crate) struct Names<T: Eq + Hash + Copy> {
    held: Held<T>,
}

impl<T: Eq + Hash + Copy> Model for Names<T> {
    ghost use Rattle.std.specs.Prelude.{List};
    ghost use Rattle.std.specs.List.{IsDistinct};
    ghost use Rattle.std.specs.Coded.{coded_list};
    ghost use Rattle.fab_nested.specs.Listed.{listed};

    ghost Value = { List T };

    ghost coded = { coded_list T.code };

    ghost view = { λ n. listed n.held };

    ghost invariant = { λ n. IsDistinct T.eq (listed n.held) };
}

impl<T: Eq + Hash + Copy> Names<T> {
    /// No names. It takes no memory.
    pub(crate) fn new(alloc: Global) -> Names<T>
        ensures { result ≡ [] }
    {
        Names {
            held: Held::Few(Vec::new(alloc)),
        }
    }

    /// The names, in order.
    pub(crate) fn as_slice(&self) -> &[T]
        ensures { result.now ≡ self.now }
    {
        match &self.held {
            Held::Few(list) => list.as_slice(),
            Held::Many(set) => set.as_slice(),
        }
    }

    /// How many there are.
    pub(crate) fn len(&self) -> usize
        ensures count { result ≡ length self.now }
        ensures small { result < 2 ^ 63 }
    {
        match &self.held {
            Held::Few(list) => list.len(),
            Held::Many(set) => set.len(),
        }
    }

    /// Whether a name is among them.
    pub(crate) fn contains(&self, name: T) -> bool
        ensures { result ≡ list_any (T.eq name) self.now }
    {
        match &self.held {
            Held::Few(list) => is_one_of(name, list.as_slice()),
            Held::Many(set) => set.contains(&name),
        }
    }

    /// Puts a name that isn't there behind the others.
    pub(crate) fn push(&mut self, name: T) -> Result<(), NoMemory>
        requires { list_any (T.eq name) self.old ≡ false }
        ensures ok { OnOk result (self.new ≡ self.old ++ name ∷ []) }
        ensures err { OnErr result (self.new ≡ self.old) }
    {
        self.held.push(name)
    }

    /// Keeps so many names, the first ones. It goes over those alone that it drops.
    pub(crate) fn truncate(&mut self, len: usize)
        ensures { self.new ≡ take len self.old }
    {
        self.held.truncate(len);
    }

    /// Drops the last name, if there is one.
    pub(crate) fn pop(&mut self)
        ensures { self.new ≡ take (length self.old - 1) self.old }
    {
        self.truncate(self.len().saturating_sub(1));
    }
}

/// Whether a name is one of these.
fn is_one_of<T: Eq + Copy>(name: T, others: &[T]) -> bool
    ensures { result ≡ list_any (T.eq name) others.now }
{
    for other in others {
        if name == *other {
            return true;
        }
    }
    false
}

/// A table of names of which none stands twice.
fn table_of<T: Eq + Hash + Copy>(alloc: Global, names: &[T]) -> Result<IndexSet<T>, NoMemory>
    requires { IsDistinct T.eq names.now }
    ensures { IfOk result (λ set. set.keys ≡ names.now) }
{
    let mut set = IndexSet::new(alloc);
    for name in names {
        set.insert(*name)?;
    }
    Ok(set)
}

/// The same with one name more at the end.
fn table_with<T: Eq + Hash + Copy>(
    alloc: Global,
    names: &[T],
    name: T,
) -> Result<IndexSet<T>, NoMemory>
    requires distinct { IsDistinct T.eq names.now }
    requires absent { list_any (T.eq name) names.now ≡ false }
    ensures { IfOk result (λ set. set.keys ≡ names.now ++ name ∷ []) }
{
    let mut set = table_of(alloc, names)?;
    set.insert(name)?;
    Ok(set)
}
