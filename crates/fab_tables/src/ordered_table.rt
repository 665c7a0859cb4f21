//! A table of many names.
ghost use Rattle.std.specs.Prelude.{◌≡◌, ◌<◌, ◌++◌, ◌∷◌, [], length, is_none, IfOk, OnOk, OnErr};
ghost use Rattle.fab_tables.specs.Places.{place_of};

use fab_base::NoMemory;
use fab_tree::Name;
use std::alloc::Global;
use std::collections::BTreeMap;
use std::marker::Model;

/// Names, each of which is found by its text. Contracts see the list of their texts. The table is in
/// the order of the texts, so no choice of names makes a look-up long.
pub struct OrderedTable<'a> {
    names: Vec<&'a str>,
    numbers: BTreeMap<&'a str, u32>,
}

impl Drop for OrderedTable<'_> {
    fn drop(self) {
        let OrderedTable { names, numbers } = self;
    }
}

impl<'a> Model for OrderedTable<'a> {
    ghost use Rattle.std.specs.Prelude.{◌≡◌, ℕ, List, map};
    ghost use Rattle.std.specs.BTreeMap.{get_by};
    ghost use Rattle.std.specs.Cmp.Lexicographic.{slice_cmp};
    ghost use Rattle.std.specs.Ordering.{nat_cmp};
    ghost use Rattle.fab_tables.specs.Places.{place_of};

    ghost Value = { List (List ℕ) };

    ghost view = { λ t. map (λ n. n.now) t.names.items };

    ghost invariant = { λ t. (q : List ℕ) → get_by (λ k. slice_cmp nat_cmp q k.now) t.numbers ≡ place_of (map (λ n. n.now) t.names.items) q };
}

impl<'a> OrderedTable<'a> {
    /// A table of no names.
    pub fn new(alloc: Global) -> OrderedTable<'a>
        ensures { result ≡ [] }
    {
        OrderedTable {
            names: Vec::new(alloc),
            numbers: BTreeMap::new(alloc),
        }
    }

    /// One more name at the end. The answer is whether no earlier one has its text.
    pub fn push(&mut self, name: &'a Name) -> Result<bool, NoMemory>
        requires { length self.old < 4294967295 }
        ensures pushed { OnOk result (self.new ≡ self.old ++ name.now.text ∷ []) }
        ensures first { IfOk result (λ first. first ≡ is_none (place_of self.old name.now.text)) }
        ensures err { OnErr result (self.new ≡ self.old) }
    {
        let text = name.text.as_str();
        self.names.reserve(1)?;
        let first = self.numbers.get(text).is_none();
        if first {
            self.numbers
                .insert(text, self.names.as_slice().len() as u32)?;
        }
        self.names.push(text)?;
        Ok(first)
    }

    /// Where the first name of this text stands.
    pub fn find(&self, name: &Name) -> Option<u32>
        ensures { result ≡ place_of self.now name.now.text }
    {
        self.numbers.get(name.text.as_str()).copied()
    }
}
